// The part of document 01's 'Checked by hand' that is not proved as an example, and holder's three answers, run on the planner.
// A line for each answer: `OK value count` or `NO number`; for holder `HELD slot until`, `IDLE until`, `IDLE` or `NO number`.
#![tactic(auto)]

use calls::Done;
use planner::{Next, Planner};
use rules::{LAST_TICK, Refusal, SEGMENT_WORDS, SHARE_WORDS};
use std::io;
use wrap::look::Holder;

// What a call answers, printed; the state that it hands back.
fn told(rt: &impl Print, next: Next) -> io::Result<Planner> {
    match next.answer {
        Ok(Done { value, count }) => println!(rt; "OK {value} {count}")?,
        Err(refusal) => println!(rt; "NO {}", refusal.number())?,
    }
    Ok(next.planner)
}

// What holder answers, printed: each case, so this is a `match`.
fn tell(rt: &impl Print, holder: Result<Holder, Refusal>) -> io::Result<()> {
    match holder {
        Ok(Holder::Held { slot, until }) => println!(rt; "HELD {slot} {until}"),
        Ok(Holder::IdleUntil(grain)) => println!(rt; "IDLE {grain}"),
        Ok(Holder::Idle) => println!(rt; "IDLE"),
        Err(refusal) => println!(rt; "NO {}", refusal.number()),
    }
}

// A board of so many cores, freshly opened.
fn opened(rt: &impl Print, shares: &mut [u32], cores: u64) -> io::Result<Planner> {
    told(rt, Planner::blank().open(shares, cores))
}

// "With nothing pending, an advance to 2 to the 40th is accepted, one tick more is refused 10; a release there is refused 10; a
// release of period 1 one tick earlier is accepted."
fn last_tick(rt: &impl Print) -> io::Result<()> {
    println!(rt; "the last tick")?;
    let mut shares = [0u32; SHARE_WORDS];
    let mut segments = [0u64; SEGMENT_WORDS];
    let p = told(rt, opened(rt, &mut shares, 1)?.declare(&shares, 1, 1))?;
    let q = told(rt, p.advance(&mut shares, LAST_TICK, &mut segments))?;
    let r = told(rt, q.advance(&mut shares, LAST_TICK + 1, &mut segments))?;
    told(rt, r.release(&mut shares, 0))?;
    Ok(())
}

fn one_tick_earlier(rt: &impl Print) -> io::Result<()> {
    let mut shares = [0u32; SHARE_WORDS];
    let mut segments = [0u64; SEGMENT_WORDS];
    let p = told(rt, opened(rt, &mut shares, 1)?.declare(&shares, 1, 1))?;
    let q = told(rt, p.advance(&mut shares, LAST_TICK - 1, &mut segments))?;
    told(rt, q.release(&mut shares, 0))?;
    Ok(())
}

// "The 64th declare is accepted if rates allow, the 65th is refused 5."
fn full_board(rt: &impl Print) -> io::Result<()> {
    println!(rt; "a full board")?;
    let mut shares = [0u32; SHARE_WORDS];
    let mut p = opened(rt, &mut shares, 1)?;
    for _ in 0..65 {
        p = told(rt, p.declare(&shares, 1, 1))?;
    }
    Ok(())
}

// "320 words pass, 319 are refused 12."
fn buffers(rt: &impl Print) -> io::Result<()> {
    println!(rt; "320 and 319 words")?;
    let mut shares = [0u32; SHARE_WORDS];
    let mut enough = [0u64; SEGMENT_WORDS];
    let mut short = [0u64; SEGMENT_WORDS - 1];
    let p = opened(rt, &mut shares, 1)?;
    let q = told(rt, p.advance(&mut shares, 1, &mut enough))?;
    told(rt, q.advance(&mut shares, 2, &mut short))?;
    Ok(())
}

// The three tasks of P6, and a job of each.
fn declared(rt: &impl Print, mut p: Planner, shares: &[u32]) -> io::Result<Planner> {
    for _ in 0..3 {
        p = told(rt, p.declare(shares, 3, 1998))?;
    }
    Ok(p)
}

fn released(rt: &impl Print, mut p: Planner, shares: &mut [u32]) -> io::Result<Planner> {
    for slot in 0..3 {
        p = told(rt, p.release(shares, slot))?;
    }
    Ok(p)
}

fn each_core(rt: &impl Print, p: Planner, shares: &[u32]) -> io::Result<()> {
    for core in 0..4 {
        tell(rt, p.holder(shares, core))?;
    }
    Ok(())
}

// Holder on P6, with a core to spare: idle with nothing pending, held and idle at both clocks, and no such core.
fn holders(rt: &impl Print) -> io::Result<()> {
    println!(rt; "holder")?;
    let mut shares = [0u32; SHARE_WORDS];
    let mut segments = [0u64; SEGMENT_WORDS];
    let p = opened(rt, &mut shares, 3)?;
    tell(rt, p.holder(&shares, 0))?;
    let d = declared(rt, p, &shares)?;
    let r = released(rt, d, &mut shares)?;
    each_core(rt, r, &shares)?;
    let q = told(rt, r.advance(&mut shares, 2, &mut segments))?;
    tell(rt, q.holder(&shares, 0))?;
    tell(rt, q.holder(&shares, 1))
}

// 4,095, 4,096 and 5,000 words of shares lent, and a planner that was never opened.
fn lengths(rt: &impl Print) -> io::Result<()> {
    println!(rt; "words lent")?;
    let mut short = [0u32; SHARE_WORDS - 1];
    let mut table = [0u32; SHARE_WORDS];
    let mut more = [7u32; 5000];
    told(rt, Planner::blank().declare(&table, 1, 1))?;
    told(rt, Planner::blank().open(&mut short, 1))?;
    let p = told(rt, Planner::blank().open(&mut table, 1))?;
    told(rt, p.declare(&short, 1, 1))?;
    let q = told(rt, Planner::blank().open(&mut more, 1))?;
    let r = told(rt, q.declare(&more, 1, 1))?;
    told(rt, r.withdraw(&more, 0))?;
    Ok(())
}

fn main(rt: HostRuntime) -> io::Result<()> {
    last_tick(&rt)?;
    one_tick_earlier(&rt)?;
    full_board(&rt)?;
    buffers(&rt)?;
    holders(&rt)?;
    lengths(&rt)
}

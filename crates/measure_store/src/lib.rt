// The store at work, in a loop that a benchmark outside can time. It answers a sum over the frames it met.
#![tactic(auto)]

use refusal::Refusal;
use store::hand::InHand;
use store::store::Store;

// A sum of octets that tells their order.
fn mix(sum: u64, octets: &[u8]) -> u64 {
    octets.first().map_or(sum, |octet| {
        sum.wrapping_mul(31).wrapping_add(u64::from(*octet))
    })
}

// One frame is put in, and the first is taken and dropped.
fn round(store: &mut Store, link: usize, octets: &[u8], sum: u64) -> Result<u64, Refusal> {
    store.put(link, 1, octets)?;
    let frame = store.take(link, 1)?;
    let sum = look(store, &frame, sum);
    match store.drop_frame(frame) {
        Ok(()) => Ok(sum),
        Err(_back) => unreachable(),
    }
}

// The first frame is taken and passed on to the same queue. Beside `round`: each spends its frame by another call.
fn turn(store: &mut Store, link: usize, sum: u64) -> Result<u64, Refusal> {
    let frame = store.take(link, 1)?;
    let sum = look(store, &frame, sum);
    match store.pass_on(frame, link, 1) {
        Ok(()) => Ok(sum),
        Err(_back) => unreachable(),
    }
}

fn look(store: &Store, frame: &InHand, sum: u64) -> u64 {
    store.octets(frame).map_or(sum, |octets| mix(sum, octets))
}

// The frame of a number among frames of 60 octets, one behind the other.
fn nth(frames: &[u8], number: usize) -> &[u8] {
    let at = 60 * (number % 128);
    frames.get(at..at + 60).unwrap_or(frames)
}

fn filled(links: usize, link: usize, waiting: usize, frames: &[u8]) -> Result<Store, Refusal> {
    let mut store = Store::new(1, links)?;
    (0..waiting).try_for_each(|number| store.put(link, 1, nth(frames, number)).map(|_| ()))?;
    Ok(store)
}

// Rounds of put, take and drop.
fn rounds(store: &mut Store, link: usize, count: usize, frames: &[u8]) -> Result<u64, Refusal> {
    (0..count).try_fold(
        0,
        |sum, number| round(store, link, nth(frames, number), sum),
    )
}

// Turns of take and pass on.
fn turns(store: &mut Store, link: usize, count: usize) -> Result<u64, Refusal> {
    (0..count).try_fold(0, |sum, _| turn(store, link, sum))
}

// The flag is the C interface's.
fn measured(
    pass: bool,
    links: usize,
    link: usize,
    waiting: usize,
    count: usize,
    frames: &[u8],
) -> Result<u64, Refusal> {
    let mut store = filled(links, link, waiting, frames)?;
    if pass {
        turns(&mut store, link, count)
    } else {
        rounds(&mut store, link, count, frames)
    }
}

// What C asks for and gets: numbers, one by one, and 0 for a refusal.
#[unsafe(no_mangle)]
pub extern "C" fn store_work(
    pass: bool,
    links: usize,
    link: usize,
    waiting: usize,
    count: usize,
    frames: &[u8],
) -> u64 {
    measured(pass, links, link, waiting, count, frames).unwrap_or(0)
}

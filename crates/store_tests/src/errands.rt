// Errands that leave no frame in hand: a frame that was taken is spent, and one that comes back is dropped.
ghost use Rattle.std.specs.Prelude.{◌≡◌, true};
ghost use Rattle.store.specs.Model.{in_hand};
ghost use Rattle.store_tests.specs.Back.{HandsBack};

use refusal::Refusal;
use store::hand::{HandedBack, InHand, Put};
use store::store::Store;

fn drop_own(store: &mut Store, frame: InHand)
    requires { in_hand frame store.old ≡ true }
{
    match store.drop_frame(frame) {
        Ok(()) => (),
        Err(_back) => unreachable(),
    }
}

// Takes a frame and spends it by this step.
pub(crate) fn carry<F: FnOnce(&mut Store, InHand) -> Result<(), HandedBack>>(
    store: &mut Store,
    link: usize,
    direction: usize,
    step: F,
) -> Result<(), Refusal>
    requires callable { F.IsAlwaysCallable step }
    requires back { HandsBack (F.post step) }
{
    let frame = store.take(link, direction)?;
    match step(store, frame) {
        Ok(()) => Ok(()),
        Err(back) => {
            let HandedBack { frame, refusal } = back;
            drop_own(store, frame);
            Err(refusal)
        }
    }
}

// Takes the first frame of link 0 and direction 0, and spends it in another store by this step. Beside `carry`, whose step
// has the one store that its frame comes back to.
pub(crate) fn carry_away<F: FnOnce(&mut Store, InHand) -> Result<(), HandedBack>>(
    own: &mut Store,
    other: &mut Store,
    step: F,
) -> Result<(), Refusal>
    requires callable { F.IsAlwaysCallable step }
    requires back { HandsBack (F.post step) }
{
    let frame = own.take(0, 0)?;
    match step(other, frame) {
        Ok(()) => Ok(()),
        Err(back) => {
            let HandedBack { frame, refusal } = back;
            drop_own(own, frame);
            Err(refusal)
        }
    }
}

// Takes a frame, looks at it and at the store while it is in hand, and drops it.
pub(crate) fn holding<R, F: FnOnce(&Store, &InHand) -> R>(
    store: &mut Store,
    link: usize,
    direction: usize,
    look: F,
) -> Result<R, Refusal>
    requires { F.IsAlwaysCallable look }
{
    let frame = store.take(link, direction)?;
    let seen = look(store, &frame);
    drop_own(store, frame);
    Ok(seen)
}

fn alike(store: &Store, frame: &InHand, octets: &[u8]) -> bool {
    store.octets(frame).is_ok_and(|found| found == octets)
}

// Takes a frame and says whether it has these octets.
pub(crate) fn take_alike(
    store: &mut Store,
    link: usize,
    direction: usize,
    octets: &[u8],
) -> Result<bool, Refusal> {
    holding(
        store,
        link,
        direction,
        |store, frame| alike(store, frame, octets),
    )
}

// The number by which another store refuses to show the octets of the first frame of link 0 and direction 0, and 0 for none:
// tests compare numbers.
pub(crate) fn shown_by(own: &mut Store, other: &Store) -> Result<u8, Refusal> {
    holding(own, 0, 0, |_, frame| match other.octets(frame) {
        Ok(_) => 0,
        Err(refusal) => refusal.number(),
    })
}

// Puts a frame in while the first one of that queue is in hand. No call of `holding`: the step of that leaves the store.
pub(crate) fn put_while_holding(
    store: &mut Store,
    link: usize,
    direction: usize,
    octets: &[u8],
) -> Result<Put, Refusal> {
    let frame = store.take(link, direction)?;
    let put = store.put(link, direction, octets);
    drop_own(store, frame);
    put
}

// Takes a frame of each of two stores and drops both in the other one. Says whether the second came back from there.
pub(crate) fn drop_both(own: &mut Store, other: &mut Store) -> Result<bool, Refusal> {
    let first = own.take(0, 0)?;
    let second = match other.take(0, 0) {
        Ok(second) => second,
        Err(refusal) => {
            drop_own(own, first);
            return Err(refusal);
        }
    };
    match other.drop_frame(first) {
        Ok(()) => match other.drop_frame(second) {
            Ok(()) => Ok(false),
            Err(back) => {
                let HandedBack { frame, refusal: _ } = back;
                drop_own(own, frame);
                Ok(true)
            }
        },
        Err(back) => {
            let HandedBack { frame, refusal } = back;
            drop_own(own, frame);
            drop_own(other, second);
            Err(refusal)
        }
    }
}

// Loops over the table switch, for measuring it beside a plain Rust table.
#![tactic(auto)]

ghost use Rattle.std.specs.Prelude.{◌≡◌};
ghost use Rattle.std.specs.Fn.{iterate};
ghost use Rattle.switch.specs.Meanings.{fresh};
ghost use Rattle.switch.specs.declared.port.Port.TheVariants.{One};
ghost use Rattle.measure_switch.specs.Loops.{summed, port_answer, learn_number, looked_up, learned_all, both_ways, look_up_sum, learn_sum};

use refusal::Refusal;
use switch::{Address, Port, Switch};
use table::TableSwitch;

fn sum_with(sum: u32, answer: u32) -> u32
    ensures { result ≡ summed sum answer }
{
    sum.wrapping_mul(31).wrapping_add(answer)
}

// What is summed up for an answer is a number, for C.
fn port_answer(port: Option<Port>) -> u32
    ensures { result ≡ port_answer port }
{
    port.map_or(0, |port| port as u32)
}

fn learn_answer(answer: Result<(), Refusal>) -> u32
    ensures { result ≡ learn_number answer }
{
    answer
        .err()
        .map_or(0, |refusal| u32::from(refusal.number()))
}

fn look_up_all<S: Switch>(switch: &S, asked: &[[u8; 6]], start: u32) -> u32
    ensures { result ≡ looked_up (S.Switch.meaning switch.now) asked.now start }
{
    asked.iter().fold(start, |sum, octets| {
        sum_with(sum, port_answer(switch.port_of(Address::from(*octets))))
    })
}

// A loop and no fold: of a closure that changes the switch no fact would be left.
fn learn_all<S: Switch>(switch: &mut S, heard: &[[u8; 6]], port: Port, start: u32) -> u32
    ensures { record { switch = S.Switch.meaning switch.new; sum = result } ≡ learned_all S.Switch.limit port heard.now (record { switch = S.Switch.meaning switch.old; sum = start }) }
{
    let mut sum = start;
    for octets in heard {
        sum = sum_with(
            sum,
            learn_answer(switch.learn(Address::from(*octets), port)),
        );
    }
    sum
}

// A switch that has heard these addresses at port 1.
fn filled<S: Switch>(known: &[[u8; 6]]) -> S
    ensures { S.Switch.meaning result ≡ (learned_all S.Switch.limit One known.now (record { switch = fresh; sum = 0 })).switch }
{
    let mut switch = S::new();
    let _ = learn_all(&mut switch, known, Port::One, 0);
    switch
}

// A loop: with a fold over the rounds the proof did not close.
#[tactic(auto, using(crate::proofs::Rounds::iterate_more))]
fn look_up_rounds<S: Switch>(switch: &S, asked: &[[u8; 6]], rounds: u32) -> u32
    ensures { result ≡ iterate (looked_up (S.Switch.meaning switch.now) asked.now) rounds 0 }
{
    let mut sum = 0;
    for round in 0..rounds {
        sum = look_up_all(switch, asked, sum);
    }
    sum
}

// Beside `look_up_rounds`: the contract of one loop that takes its step would have to carry what the step does, and be longer
// than the two loops.
#[tactic(auto, using(crate::proofs::Rounds::iterate_more))]
fn learn_rounds<S: Switch>(switch: &mut S, heard: &[[u8; 6]], rounds: u32) -> u32
    ensures { record { switch = S.Switch.meaning switch.new; sum = result } ≡ iterate (both_ways S.Switch.limit heard.now) rounds (record { switch = S.Switch.meaning switch.old; sum = 0 }) }
{
    let mut sum = 0;
    for round in 0..rounds {
        sum = learn_all(switch, heard, Port::Two, sum);
        sum = learn_all(switch, heard, Port::One, sum);
    }
    sum
}

// Looks addresses up, round by round, in a table that has heard the known ones.
#[unsafe(no_mangle)]
pub extern "C" fn switch_look_up(known: &[[u8; 6]], asked: &[[u8; 6]], rounds: u32) -> u32
    ensures { result ≡ look_up_sum known.now asked.now rounds }
{
    let switch: TableSwitch = filled(known);
    look_up_rounds(&switch, asked, rounds)
}

// Learns addresses at one port and then at the other, round by round, in a table that has heard the known ones.
#[unsafe(no_mangle)]
pub extern "C" fn switch_learn(known: &[[u8; 6]], heard: &[[u8; 6]], rounds: u32) -> u32
    ensures { result ≡ learn_sum known.now heard.now rounds }
{
    let mut switch: TableSwitch = filled(known);
    let sum = learn_rounds(&mut switch, heard, rounds);
    look_up_all(&switch, heard, sum)
}

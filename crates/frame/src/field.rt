// The fields of a frame that have few values: port role, ring state, blocked and priority.
ghost use Rattle.std.specs.Prelude.{◌≡◌, ◌≤◌, nat_le};
ghost use Rattle.layout.specs.Elements.{is_priority};
ghost use Rattle.frame.specs.Fields.{Fits, role_number, state_number, value_of_two};

use refusal::Refusal;

#[derive(Clone, Copy, PartialEq, Eq, Debug)]
pub enum PortRole {
    Primary = 0,
    Secondary = 1,
}

// The two fields have these two impls each and no trait of their own: it would have one function, of one line.
impl TryFrom<u16> for PortRole {
    type Error = Refusal;

    ghost try_from_gives = { λ number result. Fits result (nat_le number 1) (λ role. role_number role ≡ number) };

    fn try_from(number: u16) -> Result<PortRole, Refusal> {
        one_of_two(number, PortRole::Primary, PortRole::Secondary)
    }
}

impl From<PortRole> for u16 {
    ghost from_gives = { λ role number. number ≡ role_number role };

    fn from(role: PortRole) -> u16 {
        role as u16
    }
}

#[derive(Clone, Copy, PartialEq, Eq, Debug)]
pub enum RingState {
    Open = 0,
    Closed = 1,
}

impl TryFrom<u16> for RingState {
    type Error = Refusal;

    ghost try_from_gives = { λ number result. Fits result (nat_le number 1) (λ state. state_number state ≡ number) };

    fn try_from(number: u16) -> Result<RingState, Refusal> {
        one_of_two(number, RingState::Open, RingState::Closed)
    }
}

impl From<RingState> for u16 {
    ghost from_gives = { λ state number. number ≡ state_number state };

    fn from(state: RingState) -> u16 {
        state as u16
    }
}

// The value of a field that has two, which stand as 0 and 1.
pub fn one_of_two<T: Copy>(number: u16, zero: T, one: T) -> Result<T, Refusal>
    ensures { Fits result (nat_le number 1) (λ value. value ≡ value_of_two number zero one) }
{
    match number {
        0 => Ok(zero),
        1 => Ok(one),
        _ => Err(Refusal::FieldValue),
    }
}

pub(crate) fn is_priority(number: u16) -> bool
    ensures { result ≡ is_priority number }
{
    number % 0x1000 == 0
}

pub(crate) fn checked_priority(number: u16) -> Result<u16, Refusal>
    ensures { Fits result (is_priority number) (λ priority. priority ≡ number) }
{
    if is_priority(number) {
        Ok(number)
    } else {
        Err(Refusal::FieldValue)
    }
}

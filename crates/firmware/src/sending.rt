// Writing from C: one call for each kind of frame.
ghost use Rattle.std.specs.Prelude.{◌≡◌, ◌≤◌, ◌&&◌, ◌==◌, IfOk, length, nat_le};
ghost use Rattle.layout.specs.Elements.{test, topology_change, link_down, link_up};
ghost use Rattle.frame.specs.Fields.{Fits};
ghost use Rattle.writer.specs.Sent.{placed, body_shown};
ghost use Rattle.firmware.specs.Answers.{is_address, sending, sending_content, sent, LinkIs};

use frame::{Content, Frame, Link, PortRole, RingState, Test, TopologyChange, one_of_two};
use refusal::Refusal;
use writer::write;

// Writes a Test frame.
#[unsafe(no_mangle)]
pub extern "C" fn mrp_write_test(
    source: &[u8],
    priority: u16,
    sender: &[u8],
    port_role: u16,
    ring_state: u16,
    transitions: u16,
    time_stamp: u32,
    sequence: u16,
    domain: &[u8],
    out: &mut [u8],
) -> u32
    ensures answer { result ≡ (sending (test priority (placed 20 sender.now) port_role ring_state transitions time_stamp) sender.now source.now sequence domain.now out.old).answer }
    ensures octets { out.new ≡ (sending (test priority (placed 20 sender.now) port_role ring_state transitions time_stamp) sender.now source.now sequence domain.now out.old).octets }
{
    let content = test(
        priority,
        sender,
        port_role,
        ring_state,
        transitions,
        time_stamp,
    );
    send(source, content, sequence, domain, out)
}

fn test(
    priority: u16,
    sender: &[u8],
    role: u16,
    state: u16,
    transitions: u16,
    stamp: u32,
) -> Result<Content<[u8; 6]>, Refusal>
    ensures { Fits result (is_address sender.now && (nat_le role 1 && nat_le state 1)) (λ c. body_shown c ≡ test priority (placed 20 sender.now) role state transitions stamp) }
{
    Ok(Content::Test(Test {
        priority,
        sender: fixed(sender)?,
        role: PortRole::try_from(role)?,
        state: RingState::try_from(state)?,
        transitions,
        stamp,
    }))
}

// Writes a TopologyChange frame.
#[unsafe(no_mangle)]
pub extern "C" fn mrp_write_topology_change(
    source: &[u8],
    priority: u16,
    sender: &[u8],
    interval: u16,
    sequence: u16,
    domain: &[u8],
    out: &mut [u8],
) -> u32
    ensures answer { result ≡ (sending (topology_change priority (placed 20 sender.now) interval) sender.now source.now sequence domain.now out.old).answer }
    ensures octets { out.new ≡ (sending (topology_change priority (placed 20 sender.now) interval) sender.now source.now sequence domain.now out.old).octets }
{
    let content = topology_change(priority, sender, interval);
    send(source, content, sequence, domain, out)
}

fn topology_change(priority: u16, sender: &[u8], interval: u16) -> Result<Content<[u8; 6]>, Refusal>
    ensures { Fits result (is_address sender.now) (λ c. body_shown c ≡ topology_change priority (placed 20 sender.now) interval) }
{
    Ok(Content::TopologyChange(TopologyChange {
        priority,
        sender: fixed(sender)?,
        interval,
    }))
}

// Writes a LinkDown frame.
#[unsafe(no_mangle)]
pub extern "C" fn mrp_write_link_down(
    source: &[u8],
    sender: &[u8],
    port_role: u16,
    interval: u16,
    blocked: u16,
    sequence: u16,
    domain: &[u8],
    out: &mut [u8],
) -> u32
    ensures answer { result ≡ (sending (link_down (placed 18 sender.now) port_role interval blocked) sender.now source.now sequence domain.now out.old).answer }
    ensures octets { out.new ≡ (sending (link_down (placed 18 sender.now) port_role interval blocked) sender.now source.now sequence domain.now out.old).octets }
{
    let content = link_down(sender, port_role, interval, blocked);
    send(source, content, sequence, domain, out)
}

// Beside `link_up`, which makes the other variant: with the variant as an argument of `map` the two calls were not proved.
fn link_down(
    sender: &[u8],
    role: u16,
    interval: u16,
    blocked: u16,
) -> Result<Content<[u8; 6]>, Refusal>
    ensures { Fits result (is_address sender.now && (nat_le role 1 && nat_le blocked 1)) (λ c. body_shown c ≡ link_down (placed 18 sender.now) role interval blocked) }
{
    let link = link(sender, role, interval, blocked)?;
    Ok(Content::LinkDown(link))
}

// Writes a LinkUp frame.
#[unsafe(no_mangle)]
pub extern "C" fn mrp_write_link_up(
    source: &[u8],
    sender: &[u8],
    port_role: u16,
    interval: u16,
    blocked: u16,
    sequence: u16,
    domain: &[u8],
    out: &mut [u8],
) -> u32
    ensures answer { result ≡ (sending (link_up (placed 18 sender.now) port_role interval blocked) sender.now source.now sequence domain.now out.old).answer }
    ensures octets { out.new ≡ (sending (link_up (placed 18 sender.now) port_role interval blocked) sender.now source.now sequence domain.now out.old).octets }
{
    let content = link_up(sender, port_role, interval, blocked);
    send(source, content, sequence, domain, out)
}

fn link_up(
    sender: &[u8],
    role: u16,
    interval: u16,
    blocked: u16,
) -> Result<Content<[u8; 6]>, Refusal>
    ensures { Fits result (is_address sender.now && (nat_le role 1 && nat_le blocked 1)) (λ c. body_shown c ≡ link_up (placed 18 sender.now) role interval blocked) }
{
    let link = link(sender, role, interval, blocked)?;
    Ok(Content::LinkUp(link))
}

fn link(sender: &[u8], role: u16, interval: u16, blocked: u16) -> Result<Link<[u8; 6]>, Refusal>
    ensures { Fits result (is_address sender.now && (nat_le role 1 && nat_le blocked 1)) (λ l. LinkIs l sender.now role interval blocked) }
{
    Ok(Link {
        sender: fixed(sender)?,
        role: PortRole::try_from(role)?,
        interval,
        blocked: one_of_two(blocked, false, true)?,
    })
}

// The octets as an array, where there are as many as it has.
fn fixed<const N: usize>(octets: &[u8]) -> Result<[u8; N], Refusal>
    ensures { Fits result (length octets.now == N) (λ array. array ≡ octets.now) }
{
    <[u8; N]>::try_from(octets).map_err(|_| Refusal::FieldValue)
}

// Writes a frame of this content, and answers its total or the number of the refusal. Source, sequence, domain and octets
// travel one by one, as C hands them in.
fn send(
    source: &[u8],
    content: Result<Content<[u8; 6]>, Refusal>,
    sequence: u16,
    domain: &[u8],
    out: &mut [u8],
) -> u32
    ensures answer { result ≡ (sending_content content source.now sequence domain.now out.old).answer }
    ensures octets { out.new ≡ (sending_content content source.now sequence domain.now out.old).octets }
{
    match write_content(source, content, sequence, domain, out) {
        Ok(total) => total as u32,
        Err(refusal) => u32::from(refusal.number()),
    }
}

fn write_content(
    source: &[u8],
    content: Result<Content<[u8; 6]>, Refusal>,
    sequence: u16,
    domain: &[u8],
    out: &mut [u8],
) -> Result<usize, Refusal>
    ensures short { IfOk result (λ total. total ≤ 60) }
    ensures sent { sent result out.new ≡ sending_content content source.now sequence domain.now out.old }
{
    let frame = Frame {
        content: content?,
        source: fixed(source)?,
        sequence,
        domain: fixed(domain)?,
    };
    write(&frame, out)
}

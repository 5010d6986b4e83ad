//! Reading an instruction up to its opcode.
ghost use Rattle.std.specs.Prelude.{◌≡◌};
ghost use Rattle.form_scan.specs.Reading.{Gives, no_front, lead_at, shaped_head, opcode_at, class_used, long_at, escape_at, vex_two_at, vex_last_at, vex_three_at, evex_last_at, evex_more_at, evex_at, head_at};

use crate::kinds::{Front, Head, Lead, Payload, Stop};
use crate::{front, payload};
use row_table::{Class, is_used, shape};

/// The prefixes and the byte after them.
pub(crate) fn read_lead(bytes: &[u8]) -> Result<(Lead, &[u8]), Stop>
    ensures { Gives (λ x. (x.0, x.1.now)) result (lead_at no_front bytes.now) }
{
    let mut front = front::empty();
    for i in 0..bytes.len() {
        let byte = bytes[i];
        if front::is_in_front(byte) {
            front = front::with_byte(front, byte);
        } else {
            return Ok((Lead { front, byte }, &bytes[i + 1..]));
        }
    }
    Err(Stop::Short)
}

#[tactic(auto, unfolding(crate::specs::Reading::shaped_head))]
fn with_shape(front: Front, payload: Payload, opcode: u8) -> Result<Head, Stop>
    ensures { Gives (λ x. x) result (shaped_head front payload opcode) }
{
    match shape(payload.class, payload.map, opcode) {
        None => Err(Stop::Dead),
        Some(shape) => Ok(Head {
            front,
            payload,
            opcode,
            shape,
        }),
    }
}

#[tactic(auto, unfolding(crate::specs::Reading::opcode_at))]
fn read_opcode(front: Front, payload: Payload, bytes: &[u8]) -> Result<(Head, &[u8]), Stop>
    ensures { Gives (λ x. (x.0, x.1.now)) result (opcode_at front payload bytes.now) }
{
    match bytes {
        [] => Err(Stop::Short),
        [opcode, rest @ ..] => {
            let head = with_shape(front, payload, *opcode)?;
            Ok((head, rest))
        }
    }
}

/// After 0F and 38 or 3A.
#[tactic(auto, unfolding(crate::specs::Reading::long_at))]
fn read_long(front: Front, map: u8, bytes: &[u8]) -> Result<(Head, &[u8]), Stop>
    ensures { Gives (λ x. (x.0, x.1.now)) result (long_at front map bytes.now) }
{
    if is_used(Class::Legacy, map) {
        read_opcode(front, payload::from_rex(map, front.rex), bytes)
    } else {
        Err(Stop::Dead)
    }
}

/// After 0F.
#[tactic(auto, unfolding(crate::specs::Reading::escape_at))]
fn read_escape(front: Front, bytes: &[u8]) -> Result<(Head, &[u8]), Stop>
    ensures { Gives (λ x. (x.0, x.1.now)) result (escape_at front bytes.now) }
{
    match bytes {
        [] => Err(Stop::Short),
        [0x38, rest @ ..] => read_long(front, 2, rest),
        [0x3a, rest @ ..] => read_long(front, 3, rest),
        [opcode, rest @ ..] => {
            let head = with_shape(front, payload::from_rex(1, front.rex), *opcode)?;
            Ok((head, rest))
        }
    }
}

/// After C5.
#[tactic(auto, unfolding(crate::specs::Reading::vex_two_at))]
fn read_vex_two(front: Front, bytes: &[u8]) -> Result<(Head, &[u8]), Stop>
    ensures { Gives (λ x. (x.0, x.1.now)) result (vex_two_at front bytes.now) }
{
    if !is_used(Class::Vex, 1) {
        return Err(Stop::Dead);
    }
    match bytes {
        [] => Err(Stop::Short),
        [p, rest @ ..] => read_opcode(front, payload::from_vex_two(*p), rest),
    }
}

/// After C4 and the byte with the map.
#[tactic(auto, unfolding(crate::specs::Reading::vex_last_at))]
fn read_vex_last(front: Front, p: u8, bytes: &[u8]) -> Result<(Head, &[u8]), Stop>
    ensures { Gives (λ x. (x.0, x.1.now)) result (vex_last_at front p bytes.now) }
{
    if !is_used(Class::Vex, p % 32) {
        return Err(Stop::Dead);
    }
    match bytes {
        [] => Err(Stop::Short),
        [q, rest @ ..] => read_opcode(front, payload::from_vex_three(p, *q), rest),
    }
}

fn is_class_used(class: Class) -> bool
    ensures { result ≡ class_used class }
{
    is_used(class, 0) || is_used(class, 1) || is_used(class, 2) || is_used(class, 3)
}

/// After C4.
#[tactic(auto, unfolding(crate::specs::Reading::vex_three_at))]
fn read_vex_three(front: Front, bytes: &[u8]) -> Result<(Head, &[u8]), Stop>
    ensures { Gives (λ x. (x.0, x.1.now)) result (vex_three_at front bytes.now) }
{
    if !is_class_used(Class::Vex) {
        return Err(Stop::Dead);
    }
    match bytes {
        [] => Err(Stop::Short),
        [p, rest @ ..] => read_vex_last(front, *p, rest),
    }
}

/// After 62 and two bytes.
#[tactic(auto, unfolding(crate::specs::Reading::evex_last_at))]
fn read_evex_last(front: Front, p: u8, q: u8, bytes: &[u8]) -> Result<(Head, &[u8]), Stop>
    ensures { Gives (λ x. (x.0, x.1.now)) result (evex_last_at front p q bytes.now) }
{
    if q / 4 % 2 != 1 {
        return Err(Stop::Dead);
    }
    match bytes {
        [] => Err(Stop::Short),
        [s, rest @ ..] => read_opcode(front, payload::from_evex(p, q, *s), rest),
    }
}

/// After 62 and the byte with the map.
#[tactic(auto, unfolding(crate::specs::Reading::evex_more_at))]
fn read_evex_more(front: Front, p: u8, bytes: &[u8]) -> Result<(Head, &[u8]), Stop>
    ensures { Gives (λ x. (x.0, x.1.now)) result (evex_more_at front p bytes.now) }
{
    if p / 8 % 2 == 0 && is_used(Class::Evex, p % 8) {
        match bytes {
            [] => Err(Stop::Short),
            [q, rest @ ..] => read_evex_last(front, p, *q, rest),
        }
    } else {
        Err(Stop::Dead)
    }
}

/// After 62.
#[tactic(auto, unfolding(crate::specs::Reading::evex_at))]
fn read_evex(front: Front, bytes: &[u8]) -> Result<(Head, &[u8]), Stop>
    ensures { Gives (λ x. (x.0, x.1.now)) result (evex_at front bytes.now) }
{
    if !is_class_used(Class::Evex) {
        return Err(Stop::Dead);
    }
    match bytes {
        [] => Err(Stop::Short),
        [p, rest @ ..] => read_evex_more(front, *p, rest),
    }
}

/// After the prefixes and the byte behind them.
#[tactic(auto, unfolding(crate::specs::Reading::head_at))]
pub(crate) fn read_head(lead: Lead, bytes: &[u8]) -> Result<(Head, &[u8]), Stop>
    ensures { Gives (λ x. (x.0, x.1.now)) result (head_at lead bytes.now) }
{
    match lead.byte {
        0x0f => read_escape(lead.front, bytes),
        0xc5 => read_vex_two(lead.front, bytes),
        0xc4 => read_vex_three(lead.front, bytes),
        0x62 => read_evex(lead.front, bytes),
        opcode => {
            let payload = payload::from_rex(0, lead.front.rex);
            let head = with_shape(lead.front, payload, opcode)?;
            Ok((head, bytes))
        }
    }
}

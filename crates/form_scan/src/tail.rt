//! Reading what follows the opcode.
ghost use Rattle.std.specs.Prelude.{◌≡◌, ◌≤◌, length, IfOk};
ghost use Rattle.form_scan.specs.Shaped.{disp_size, word_size, reg_is_zero, imm_size, number_of, signed_of, fields_of};
ghost use Rattle.form_scan.specs.Reading.{Gives, optional_at, chunk_at, tail_at};

use crate::kinds::{Front, Head, Stop};
use row_table::{Fields, wants_sib};

/// A byte where one is wanted: ModRM or SIB.
#[tactic(auto, unfolding(crate::specs::Reading::optional_at))]
fn read_optional(wanted: bool, bytes: &[u8]) -> Result<(Option<u8>, &[u8]), Stop>
    ensures { Gives (λ x. (x.0, x.1.now)) result (optional_at wanted bytes.now) }
{
    if wanted {
        match bytes {
            [] => Err(Stop::Short),
            [byte, rest @ ..] => Ok((Some(*byte), rest)),
        }
    } else {
        Ok((None, bytes))
    }
}

/// That many bytes.
#[tactic(auto, unfolding(crate::specs::Reading::chunk_at))]
fn read_chunk(size: u8, bytes: &[u8]) -> Result<(&[u8], &[u8]), Stop>
    ensures gives { Gives (λ x. (x.0.now, x.1.now)) result (chunk_at size bytes.now) }
    ensures long { IfOk result (λ x. length x.0.now ≡ size) }
{
    if bytes.len() < size as usize {
        return Err(Stop::Short);
    }
    Ok(bytes.split_at(size as usize))
}

/// The size of the displacement.
fn disp_len(modrm: Option<u8>, sib: Option<u8>) -> u8
    ensures { result ≡ disp_size modrm sib }
{
    match modrm {
        None => 0,
        Some(byte) => match byte / 64 {
            1 => 1,
            2 => 4,
            0 if byte % 8 == 5 => 4,
            0 => match sib {
                None => 0,
                Some(sib) => if sib % 8 == 5 { 4 } else { 0 },
            },
            _ => 0,
        },
    }
}

/// The size of an immediate that goes by operand size and has at most 4 bytes.
fn word_len(w: bool, p66: bool) -> u8
    ensures { result ≡ word_size w p66 }
{
    if p66 && !w { 2 } else { 4 }
}

fn is_reg_zero(modrm: Option<u8>) -> bool
    ensures { result ≡ reg_is_zero modrm }
{
    match modrm {
        None => false,
        Some(byte) => byte / 8 % 8 == 0,
    }
}

/// The size of the immediate, by its size code.
fn imm_len(w: bool, front: Front, code: u8, modrm: Option<u8>) -> u8
    ensures { result ≡ imm_size w front.p66 front.p67 code modrm }
{
    let word = word_len(w, front.p66);
    match code {
        10 => word,
        11 => if w { 8 } else { word },
        12 => if front.p67 { 4 } else { 8 },
        13 => if is_reg_zero(modrm) { 1 } else { 0 },
        14 => if is_reg_zero(modrm) { word } else { 0 },
        1 => 1,
        2 => 2,
        4 => 4,
        8 => 8,
        _ => 0,
    }
}

/// An immediate as a number, without its sign.
#[tactic(auto, unfolding(crate::specs::Shaped::number_of))]
fn number(bytes: &[u8]) -> u64
    ensures { result ≡ number_of bytes.now }
{
    match bytes {
        [a] => *a as u64,
        [a, b] => u16::from_le_bytes([*a, *b]) as u64,
        [a, b, c, d] => u32::from_le_bytes([*a, *b, *c, *d]) as u64,
        [a, b, c, d, e, f, g, h] => u64::from_le_bytes([*a, *b, *c, *d, *e, *f, *g, *h]),
        _ => 0,
    }
}

/// A displacement as a signed number.
#[tactic(auto, unfolding(crate::specs::Shaped::signed_of))]
fn signed(bytes: &[u8]) -> i64
    ensures { result ≡ signed_of bytes.now }
{
    match bytes {
        [a] => i8::from_le_bytes([*a]) as i64,
        [a, b, c, d] => i32::from_le_bytes([*a, *b, *c, *d]) as i64,
        _ => 0,
    }
}

/// The fields that the parts give.
#[tactic(auto, unfolding(crate::specs::Shaped::fields_of))]
fn fields(head: Head, modrm: Option<u8>, sib: Option<u8>, disp: &[u8], imm: &[u8]) -> Fields
    requires disp { length disp.now ≤ 255 }
    requires imm { length imm.now ≤ 255 }
    ensures { result ≡ fields_of head.front head.payload head.opcode modrm sib disp.now imm.now }
{
    let Head {
        front,
        payload,
        opcode,
        ..
    } = head;
    Fields {
        class: payload.class,
        segment: front.segment,
        lock: front.lock,
        rep: front.rep,
        p66: front.p66,
        p67: front.p67,
        rex: front.rex != 0,
        w: payload.w,
        r: payload.r,
        x: payload.x,
        b: payload.b,
        v: payload.v,
        l: payload.l,
        pp: payload.pp,
        map: payload.map,
        opcode,
        modrm,
        sib,
        disp: signed(disp),
        disp_len: disp.len() as u8,
        imm: number(imm),
        imm_len: imm.len() as u8,
        z: payload.z,
        bc: payload.bc,
        aaa: payload.aaa,
    }
}

/// ModRM, SIB, displacement and immediate.
#[tactic(auto, unfolding(crate::specs::Reading::tail_at))]
pub(crate) fn read_tail(head: Head, bytes: &[u8]) -> Result<(Fields, &[u8]), Stop>
    ensures { Gives (λ x. (x.0, x.1.now)) result (tail_at head bytes.now) }
{
    let (modrm, rest) = read_optional(head.shape.modrm, bytes)?;
    let (sib, rest) = read_optional(wants_sib(modrm), rest)?;
    let (disp, rest) = read_chunk(disp_len(modrm, sib), rest)?;
    let imm_len = imm_len(head.payload.w, head.front, head.shape.imm, modrm);
    let (imm, rest) = read_chunk(imm_len, rest)?;
    Ok((fields(head, modrm, sib, disp, imm), rest))
}

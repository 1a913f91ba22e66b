// Fields that are numbers.
ghost use Rattle.std.specs.Prelude.{◌≡◌, ◌≤◌, IfOk};
ghost use Rattle.std.specs.Int.{w8, w16, w32, w64};
ghost use Rattle.tx_core.specs.Checks.{is_within};
ghost use Rattle.wire_codec.specs.Fields.{number};
ghost use Rattle.state_codec.specs.Reading.{Gives, front};

use crate::stop::Stop;

/// The number of one byte from `low` to `high` with which bytes begin, and what stands behind it. It is `Other` exactly
/// where they begin with none.
pub fn u8_at(low: u8, high: u8, bytes: &[u8]) -> Result<(u8, &[u8]), Stop>
    ensures value { Gives (λ x. (x.0, x.1.now)) result (front (number w8 low high) bytes.now) }
    ensures range { IfOk result (λ x. (low ≤ x.0) × (x.0 ≤ high)) }
{
    if bytes.is_empty() {
        return Err(Stop::Other);
    }
    let (front, rest) = bytes.split_at(1);
    let number = front[0];
    if !is_within(u64::from(low), u64::from(high), u64::from(number)) {
        return Err(Stop::Other);
    }
    Ok((number, rest))
}

/// A number of two bytes.
pub fn u16_at(low: u16, high: u16, bytes: &[u8]) -> Result<(u16, &[u8]), Stop>
    ensures value { Gives (λ x. (x.0, x.1.now)) result (front (number w16 low high) bytes.now) }
    ensures range { IfOk result (λ x. (low ≤ x.0) × (x.0 ≤ high)) }
{
    if bytes.len() < 2 {
        return Err(Stop::Other);
    }
    let (front, rest) = bytes.split_at(2);
    let number = u16::from_be_bytes([front[0], front[1]]);
    if !is_within(u64::from(low), u64::from(high), u64::from(number)) {
        return Err(Stop::Other);
    }
    Ok((number, rest))
}

/// The number of four bytes from `low` to `high` with which bytes begin, and what stands behind it. It is `Other` exactly
/// where they begin with none.
pub fn u32_at(low: u32, high: u32, bytes: &[u8]) -> Result<(u32, &[u8]), Stop>
    ensures value { Gives (λ x. (x.0, x.1.now)) result (front (number w32 low high) bytes.now) }
    ensures range { IfOk result (λ x. (low ≤ x.0) × (x.0 ≤ high)) }
{
    if bytes.len() < 4 {
        return Err(Stop::Other);
    }
    let (front, rest) = bytes.split_at(4);
    let number = u32::from_be_bytes([front[0], front[1], front[2], front[3]]);
    if !is_within(u64::from(low), u64::from(high), u64::from(number)) {
        return Err(Stop::Other);
    }
    Ok((number, rest))
}

/// The number of eight bytes from `low` to `high` with which bytes begin, and what stands behind it. It is `Other` exactly
/// where they begin with none.
pub fn u64_at(low: u64, high: u64, bytes: &[u8]) -> Result<(u64, &[u8]), Stop>
    ensures value { Gives (λ x. (x.0, x.1.now)) result (front (number w64 low high) bytes.now) }
    ensures range { IfOk result (λ x. (low ≤ x.0) × (x.0 ≤ high)) }
{
    if bytes.len() < 8 {
        return Err(Stop::Other);
    }
    let (front, rest) = bytes.split_at(8);
    let number = u64::from_be_bytes([
        front[0], front[1], front[2], front[3], front[4], front[5], front[6], front[7],
    ]);
    if !is_within(low, high, number) {
        return Err(Stop::Other);
    }
    Ok((number, rest))
}

/// Whether a number is from low to high.
pub fn is_within(low: u64, high: u64, number: u64) -> bool
    ensures { result ≡ is_within low high number }
{
    low <= number && number <= high
}

//! Single fields. Each reader gives a value and the bytes behind it. Numbers have their lowest byte
//! first.

ghost use Rattle.std.specs.Prelude.{◌≡◌, ◌≤◌};
ghost use Rattle.xdf_model.specs.Reading.{number_at, length_at};
ghost use Rattle.sample_values.specs.Rest.{Finds};

use crate::fault::wrong;
use byteorder::{ByteOrder, LittleEndian};
use sample_values::WalkFault;
use xdf_lengths::{NumRead, read_num};
use xdf_model::Why;

#[tactic(auto, unfolding(xdf_model::specs::Reading::number_at, xdf_model::specs::Reading::front_at))]
pub(crate) fn read_number64(bytes: &[u8]) -> Result<(u64, &[u8]), WalkFault>
    ensures { Finds (λ x. (x.0, x.1.now)) result (number_at 8 bytes.now) }
{
    if bytes.len() < 8 {
        return Err(WalkFault::Outside);
    }
    let (front, rest) = bytes.split_at(8);
    Ok((LittleEndian::read_u64(front), rest))
}

#[tactic(auto, unfolding(xdf_model::specs::Reading::number_at, xdf_model::specs::Reading::front_at))]
pub(crate) fn read_number32(bytes: &[u8]) -> Result<(u32, &[u8]), WalkFault>
    ensures { Finds (λ x. (x.0, x.1.now)) result (number_at 4 bytes.now) }
{
    if bytes.len() < 4 {
        return Err(WalkFault::Outside);
    }
    let (front, rest) = bytes.split_at(4);
    Ok((LittleEndian::read_u32(front), rest))
}

#[tactic(auto, unfolding(xdf_model::specs::Reading::length_at))]
pub(crate) fn read_length(bytes: &[u8]) -> Result<(u64, &[u8]), WalkFault>
    ensures { Finds (λ x. (x.0, x.1.now)) result (length_at bytes.now) }
{
    match read_num(bytes) {
        NumRead::Read { value, used } => Ok((value, &bytes[used..])),
        NumRead::Short => Err(WalkFault::Outside),
        NumRead::BadWidth(_) => Err(wrong(bytes.len(), Why::BadWidth)),
    }
}

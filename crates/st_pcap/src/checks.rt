ghost use Rattle.std.specs.Prelude.{◌≡◌, ◌≤◌, length, IfErr, MatchResult, Some};
ghost use Rattle.byteorder.specs.Endian.{little_number};
ghost use Rattle.st_pcap.specs.Forms.{magic};
ghost use Rattle.st_pcap.specs.Heads.{IsFileHead, refusal_of_file, refusal_of_rest, refusal_of_fields};
ghost use Rattle.st_pcap.specs.Checks.{HasFields, IsNoLimit};
ghost use Rattle.st_pcap.specs.Taking.{RefusesHead, RefusesRecord};

use crate::errors::PcapErr;
use crate::forms::{Form, Order, Unit, fractions, nanoseconds, number_at, short_at};
use crate::head_fields::HeadFields;
use crate::numbers::{
    BIG_MICRO, BIG_NANO, CAPTURED_AT, ETHERNET, FILE_HEAD_SIZE, FRACTION_AT, LINK_AT, LINK_LIMIT,
    LITTLE_MICRO, LITTLE_NANO, MAJOR, MAJOR_AT, MAX_BODY, MINOR, MINOR_AT, NUMBER_SIZE, ORIG_AT,
    RECORD_HEAD_SIZE, SEC_AT,
};
use byteorder::{ByteOrder, LittleEndian};

/// The form of the file whose first 24 bytes, or as many as it has, are `head`; else the cause for
/// which they are no file head.
pub fn form_in(head: &[u8]) -> Result<Form, PcapErr>
    requires { length head.now ≤ FILE_HEAD_SIZE }
    ensures checks { MatchResult result (λ form. IsFileHead form.order form.unit head.now)
        (λ e. refusal_of_file head.now ≡ Some e) }
    ensures takes { IfErr result (RefusesHead 0 (length head.now)) }
    ensures below { IfErr result IsNoLimit }
{
    if head.len() < NUMBER_SIZE {
        return Err(PcapErr::Truncated {
            number: 0,
            have: head.len() as u64,
            want: FILE_HEAD_SIZE as u64,
        });
    }
    match LittleEndian::read_u32(head) {
        LITTLE_MICRO => form_with(Order::Little, Unit::Micro, head),
        BIG_MICRO => form_with(Order::Big, Unit::Micro, head),
        LITTLE_NANO => form_with(Order::Little, Unit::Nano, head),
        BIG_NANO => form_with(Order::Big, Unit::Nano, head),
        found => Err(PcapErr::NotPcap { found }),
    }
}

/// The form of the file whose head this is, its magic being that of `order` and `unit`; else the
/// cause for which the bytes are no file head.
fn form_with(order: Order, unit: Unit, head: &[u8]) -> Result<Form, PcapErr>
    // What is known of the head.
    requires magic { little_number NUMBER_SIZE head.now ≡ magic order unit }
    requires size { length head.now ≤ FILE_HEAD_SIZE }
    // The form, or the cause.
    ensures checks { MatchResult result (λ form. IsFileHead form.order form.unit head.now)
        (λ e. refusal_of_rest order head.now ≡ Some e) }
    // Which causes come, and after how many bytes.
    ensures takes { IfErr result (RefusesHead 0 (length head.now)) }
    ensures below { IfErr result IsNoLimit }
{
    if head.len() < FILE_HEAD_SIZE {
        return Err(PcapErr::Truncated {
            number: 0,
            have: head.len() as u64,
            want: FILE_HEAD_SIZE as u64,
        });
    }
    let major = short_at(order, MAJOR_AT, head);
    let minor = short_at(order, MINOR_AT, head);
    if major != MAJOR || minor != MINOR {
        return Err(PcapErr::Version { major, minor });
    }
    let found = number_at(order, LINK_AT, head) % LINK_LIMIT;
    if found != ETHERNET {
        return Err(PcapErr::LinkType { found });
    }
    Ok(Form { order, unit })
}

/// What the 16 bytes before the body of record `number` say; else the first of their fields that
/// is out of range.
pub fn fields_in(form: Form, number: u64, head: &[u8]) -> Result<HeadFields, PcapErr>
    requires { length head.now ≡ RECORD_HEAD_SIZE }
    ensures checks { MatchResult result (HasFields form head.now)
        (λ e. refusal_of_fields form.order form.unit number head.now ≡ Some e) }
    ensures takes { IfErr result (RefusesRecord 0 RECORD_HEAD_SIZE) }
    ensures below { IfErr result IsNoLimit }
{
    let fraction = number_at(form.order, FRACTION_AT, head);
    if fraction >= fractions(form.unit) {
        return Err(PcapErr::BadFraction {
            number,
            found: fraction,
        });
    }
    let captured = number_at(form.order, CAPTURED_AT, head);
    if captured > MAX_BODY {
        return Err(PcapErr::TooLong {
            number,
            len: captured,
        });
    }
    Ok(HeadFields {
        sec: number_at(form.order, SEC_AT, head),
        nsec: nanoseconds(form.unit, fraction),
        captured,
        orig: number_at(form.order, ORIG_AT, head),
    })
}

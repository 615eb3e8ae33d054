//! The parts that written lists share.

use crate::writer::Writer;
use hpf_base::Name;

/// Writes what stands before the part of a list at this place, counted from 0.
pub(crate) fn write_comma(out: &mut Writer<'_>, place: usize) {
    if place > 0 {
        out.text(", ");
    }
}

pub(crate) fn write_name(out: &mut Writer<'_>, name: &Name) {
    out.bytes(name.bytes());
}

pub(crate) fn write_names(out: &mut Writer<'_>, names: &[Name]) {
    for (place, name) in names.iter().enumerate() {
        write_comma(out, place);
        write_name(out, name);
    }
}

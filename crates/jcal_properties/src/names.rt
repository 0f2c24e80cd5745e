// Names in lowercase as JSON strings.
ghost use Rattle.octets.specs.Classes.{lower};
ghost use Rattle.octets.specs.Pen.{pen, Wrote};
ghost use Rattle.json_text.specs.Print.{print_string};

use json_text::put_escaped;
use octets::{is_name, lower_octet, put, put_lower};

// Writes a text in lowercase as a string, octet by octet.
fn put_lower_string(out: &mut [u8], at: usize, name: &[u8]) -> usize
    ensures { Wrote (pen out.old at) (print_string (lower name.now)) (pen out.new result) }
{
    let mut to = put(out, at, b'"');
    for &c in name {
        to = put_escaped(out, to, lower_octet(c));
    }
    put(out, to, b'"')
}

// Writes a name in lowercase: none of its octets is escaped.
pub fn put_name(out: &mut [u8], at: usize, name: &[u8]) -> usize
    ensures { Wrote (pen out.old at) (print_string (lower name.now)) (pen out.new result) }
{
    if is_name(name) {
        let a = put(out, at, b'"');
        let b = put_lower(out, a, name);
        return put(out, b, b'"');
    }
    put_lower_string(out, at, name)
}

// Parameters written through the folding pen.
ghost use Rattle.std.specs.Prelude.{◌≡◌, map};
ghost use Rattle.json_text.specs.Tree.{octets_of};
ghost use Rattle.json_text.specs.Tape.{tag_string};
ghost use Rattle.tape.specs.Decode.{tag_at, value_at, list_at, members_at};
ghost use Rattle.content.specs.Write.{more_values, params_text};
ghost use Rattle.content.specs.Folding.{folding, Folded};
ghost use Rattle.conversion_theory.specs.Skeleton.{values_from, params_from};
ghost use Rattle.ical_properties.specs.ParamValues.{param_values_text};

use super::places::into;
use content::{Folder, begin_param, next_param_value, write_param_value};
use tape::{ARRAY, END, STRING, behind, tag, text_at};

// Writes the values from `at` to the end of the array, a comma before each.
fn write_more(out: &mut [u8], p: Folder, t: &[u8], at: usize) -> Folder
    ensures { Folded (folding out.old p) (more_values (map octets_of (list_at t.now at))) (folding out.new result) }
{
    let mut q = p;
    let mut i = at;
    loop {
        if tag(t, i) == END {
            return q;
        }
        let x = text_at(t, i);
        q = next_param_value(out, q, &t[x.from..x.to]);
        i = x.next;
    }
}

// Writes the values of the parameter at `at`, which is no string, commas between them.
fn write_param_values(out: &mut [u8], p: Folder, t: &[u8], at: usize) -> Folder
    requires { (tag_at t.now at ≡ tag_string) → ⊥ }
    ensures { Folded (folding out.old p) (param_values_text (values_from (value_at t.now at))) (folding out.new result) }
{
    let a = into(t, at, ARRAY);
    if tag(t, a) == END {
        return p;
    }
    let x = text_at(t, a);
    let q = write_param_value(out, p, &t[x.from..x.to]);
    let b = x.next;
    write_more(out, q, t, b)
}

// Writes the parameters from `at` to the end of the object.
pub fn write_params(out: &mut [u8], p: Folder, t: &[u8], at: usize) -> Folder
    ensures { Folded (folding out.old p) (params_text (params_from (members_at t.now at))) (folding out.new result) }
{
    let mut q = p;
    let mut i = at;
    loop {
        if tag(t, i) == END {
            return q;
        }
        let k = text_at(t, i);
        let v = k.next;
        q = begin_param(out, q, &t[k.from..k.to]);
        if tag(t, v) == STRING {
            let x = text_at(t, v);
            q = write_param_value(out, q, &t[x.from..x.to]);
            i = x.next;
        } else {
            q = write_param_values(out, q, t, v);
            i = behind(t, v);
        }
    }
}

// Content lines written, each folded and ended.
ghost use Rattle.std.specs.Prelude.{◌≡◌, true, [], ◌∷◌, ◌++◌, ◌-◌, ◌≤◌, length, take, drop};
ghost use Rattle.octets.specs.Classes.{is_name, upper};
ghost use Rattle.octets.specs.Pen.{pen, Wrote};
ghost use Rattle.tape.specs.Decode.{members_at};
ghost use Rattle.content.specs.Fold.{text_of};
ghost use Rattle.content.specs.Folding.{folding, Folded};
ghost use Rattle.conversion_theory.specs.Skeleton.{params_from};
ghost use Rattle.ical.specs.Writes.{value_param_text, head_text};

use content::{Folder, begin_param, end_line, fold_all, fold_octet, fold_upper};
use ical_properties::write_params;
use tape::Text;

// BEGIN or END, and a name that stands on the tape.
pub(crate) fn write_mark(out: &mut [u8], at: usize, word: &[u8], t: &[u8], name: Text) -> usize
    requires { (name.from ≤ name.to) × (name.to ≤ length t.now) }
    ensures { Wrote (pen out.old at) (text_of ((word.now ++ upper (take (name.to - name.from) (drop name.from t.now))) ∷ [])) (pen out.new result) }
{
    let p = fold_all(out, Folder { at, column: 0 }, word);
    let q = fold_upper(out, p, &t[name.from..name.to]);
    end_line(out, q)
}

// VALUE, where it is shown.
fn write_kind(out: &mut [u8], p: Folder, shown: bool, kind: &[u8]) -> Folder
    requires { is_name kind.now ≡ true }
    ensures { Folded (folding out.old p) (value_param_text shown kind.now) (folding out.new result) }
{
    if !shown {
        return p;
    }
    let q = begin_param(out, p, b"value");
    fold_upper(out, q, kind)
}

// The head of a content line: name, VALUE where it is shown, parameters, colon.
pub(crate) fn write_head(
    out: &mut [u8],
    p: Folder,
    name: &[u8],
    shown: bool,
    kind: &[u8],
    t: &[u8],
    params: usize,
) -> Folder
    requires { is_name kind.now ≡ true }
    ensures { Folded (folding out.old p) (head_text name.now shown kind.now (params_from (members_at t.now params))) (folding out.new result) }
{
    let f = fold_upper(out, p, name);
    let g = write_kind(out, f, shown, kind);
    let h = write_params(out, g, t, params);
    fold_octet(out, h, b':')
}

// A recurrence object, written as a rule of iCalendar if it is one.
ghost use Rattle.content.specs.Folding.{folding};
ghost use Rattle.ical_recur.specs.Room.{has_room};
ghost use Rattle.ical_recur.specs.Ruled.{RuledAs};

use crate::wording::lay_members;
use crate::writing::fold_rule;
use calendar::rules::is_rule;
use content::Folder;
use tape::{OBJECT, after, tag};

// Writes the value at `at`, if it is a recurrence rule, and tells where the pen stands; else `out` is as before in front of the pen, and the code's
// choice behind. The object's text is laid into `rule`, which is as long as the tape, or there is no rule; it keeps its length, and what is left in it
// is the code's choice.
pub fn write_rule(out: &mut [u8], p: Folder, t: &[u8], at: usize, rule: &mut [u8]) -> Option<Folder>
    ensures { RuledAs (has_room t.now rule.old) t.now at (folding out.old p) out.new result }
{
    if rule.len() < t.len() {
        return None;
    }
    if tag(t, at) != OBJECT {
        return None;
    }
    let i = after(t, at);
    let (n, _) = lay_members(rule, 0, t, i)?;
    if !is_rule(&rule[0..n]) {
        return None;
    }
    Some(fold_rule(out, p, &rule[0..n]))
}

// Texts in the basic form through the folding pen.
ghost use Rattle.octets.specs.Classes.{upper};
ghost use Rattle.calendar.specs.Texts.{form_text};
ghost use Rattle.content.specs.Folding.{folding, Folded};

use calendar::texts::{Form, basic};
use content::{Folder, fold_all};

// Writes a text in the basic form.
pub(crate) fn fold_basic(out: &mut [u8], p: Folder, form: Form, s: &[u8]) -> Folder
    ensures { Folded (folding out.old p) (form_text form (upper s.now)) (folding out.new result) }
{
    fold_all(out, p, basic(form, s).as_slice())
}

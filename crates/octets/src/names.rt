// Classes of octets, names, and their case.
ghost use Rattle.std.specs.Prelude.{◌≡◌, ◌<◌, ℕ, Bool, map, get_or, ltb, IfSome};
ghost use Rattle.octets.specs.Basics.{◌and◌, all, filled, same};
ghost use Rattle.octets.specs.Classes.{between, is_digit, is_upper, is_lower, name_octet, is_name, lower_name_octet, is_lower_name, plain_octet, text_octet, is_space, upper_octet, lower_octet, upper, lower, same_name, hex_digit};
ghost use Rattle.octets.specs.Decimal.{digits};
ghost use Rattle.octets.specs.Optional.{said, when};
ghost use Rattle.octets.specs.Groups.{belongs, cased, json_unescaped, as_is_octet, text_bare, text_as_is, safe_octet, caret_free, param_as_is};

// A class of octets that a whole slice can be tested for, and whose runs are looked for.
#[derive(Clone, Copy)]
pub enum Class {
    Digit,
    Name,
    LowerName,
    Plain,
    Text,
    Space,
    Unescaped,
    AsIs,
    TextBare,
    TextAsIs,
    Safe,
    CaretFree,
    ParamAsIs,
    // Any octet but this one.
    Other(u8),
}

pub(crate) fn within(lo: u8, hi: u8, c: u8) -> bool
    ensures { result ≡ between lo hi c }
{
    lo <= c && c <= hi
}

pub fn is_digit(c: u8) -> bool
    ensures { result ≡ is_digit c }
{
    within(b'0', b'9', c)
}

pub fn is_upper(c: u8) -> bool
    ensures { result ≡ is_upper c }
{
    within(b'A', b'Z', c)
}

pub fn is_lower(c: u8) -> bool
    ensures { result ≡ is_lower c }
{
    within(b'a', b'z', c)
}

// A letter, a digit or a hyphen.
fn is_name_octet(c: u8) -> bool
    ensures { result ≡ name_octet c }
{
    is_upper(c) || is_lower_name_octet(c)
}

// A lowercase letter, a digit or a hyphen.
fn is_lower_name_octet(c: u8) -> bool
    ensures { result ≡ lower_name_octet c }
{
    is_lower(c) || is_digit(c) || c == b'-'
}

// No control character but tab.
pub fn is_plain_octet(c: u8) -> bool
    ensures { result ≡ plain_octet c }
{
    if c <= 31 { c == b'\t' } else { c != 127 }
}

// No control character but tab and newline.
fn is_text_octet(c: u8) -> bool
    ensures { result ≡ text_octet c }
{
    is_plain_octet(c) || c == b'\n'
}

// White space of JSON.
fn is_space(c: u8) -> bool
    ensures { result ≡ is_space c }
{
    matches!(c, b' ' | b'\n' | b'\r' | b'\t')
}

// Stands for itself in a JSON string; with no branch.
fn is_unescaped(c: u8) -> bool
    ensures { result ≡ json_unescaped c }
{
    both(32 <= c, both(c != b'"', c != b'\\'))
}

// Is written into a JSON string as it is.
fn is_as_is(c: u8) -> bool
    ensures { result ≡ as_is_octet c }
{
    !matches!(c, b'"' | b'\\' | b'\n' | b'\t')
}

// Stands in a text as it is; with no branch.
fn is_text_bare(c: u8) -> bool
    ensures { result ≡ text_bare c }
{
    both(
        32 <= c,
        both(c != b',', both(c != b';', both(c != b'\\', c != 127))),
    )
}

// Is the same in a text and in a JSON string.
fn is_text_as_is(c: u8) -> bool
    ensures { result ≡ text_as_is c }
{
    both(c != b'"', is_text_bare(c))
}

// May stand in a parameter value without quotes.
fn is_safe(c: u8) -> bool
    ensures { result ≡ safe_octet c }
{
    both(c != b',', both(c != b';', both(c != b':', c != b'"')))
}

// Is encoded by no caret.
fn is_caret_free(c: u8) -> bool
    ensures { result ≡ caret_free c }
{
    both(c != b'^', both(c != b'"', c != b'\n'))
}

// Is the same in a parameter value and in a JSON string.
fn is_param_as_is(c: u8) -> bool
    ensures { result ≡ param_as_is c }
{
    both(c != b'^', is_as_is(c))
}

pub fn upper_octet(c: u8) -> u8
    ensures { result ≡ upper_octet c }
{
    if is_lower(c) { c - 32 } else { c }
}

pub fn lower_octet(c: u8) -> u8
    ensures { result ≡ lower_octet c }
{
    if is_upper(c) { c + 32 } else { c }
}

// The case that a slice is written in, or that names compare in.
#[derive(Clone, Copy)]
pub enum Case {
    Upper,
    Lower,
    Exact,
}

impl Case {
    pub(crate) fn turn(self, c: u8) -> u8
        ensures { result ≡ cased self c }
    {
        match self {
            Case::Upper => upper_octet(c),
            Case::Lower => lower_octet(c),
            Case::Exact => c,
        }
    }
}

// The value of a hexadecimal digit.
pub fn hex_digit(c: u8) -> Option<u8>
    ensures value { said result ≡ when (ltb (hex_digit c) 16) (hex_digit c) }
    ensures low { IfSome result (λ d. d < 16) }
{
    if is_digit(c) {
        return Some(c - b'0');
    }
    if within(b'A', b'F', c) {
        return Some(c - b'A' + 10);
    }
    if within(b'a', b'f', c) {
        return Some(c - b'a' + 10);
    }
    None
}

impl Class {
    #[inline(always)]
    pub(crate) fn has(self, c: u8) -> bool
        ensures { result ≡ belongs self c }
    {
        match self {
            Class::Digit => is_digit(c),
            Class::Name => is_name_octet(c),
            Class::LowerName => is_lower_name_octet(c),
            Class::Plain => is_plain_octet(c),
            Class::Text => is_text_octet(c),
            Class::Space => is_space(c),
            Class::Unescaped => is_unescaped(c),
            Class::AsIs => is_as_is(c),
            Class::TextBare => is_text_bare(c),
            Class::TextAsIs => is_text_as_is(c),
            Class::Safe => is_safe(c),
            Class::CaretFree => is_caret_free(c),
            Class::ParamAsIs => is_param_as_is(c),
            Class::Other(b) => c != b,
        }
    }
}

// Both, with no branch.
pub fn both(a: bool, b: bool) -> bool
    ensures { result ≡ (a and b) }
{
    if a { b } else { false }
}

// Each octet passes the test. The loop has no way out on the way, so that many octets are tested at once.
pub fn each_is<F: Fn(u8) -> bool>(s: &[u8], test: F) -> bool
    requires { F.IsAlwaysCallable test }
    ensures { (p : ℕ → Bool) → ((c : ℕ) (r : Bool) → F.post test c r → r ≡ p c) → result ≡ all p s.now }
{
    let mut so_far = true;
    for &c in s {
        so_far = both(so_far, test(c));
    }
    so_far
}

// Each octet is of the class.
pub(crate) fn all_in(s: &[u8], class: Class) -> bool
    ensures { result ≡ all (belongs class) s.now }
{
    each_is(s, |c| class.has(c))
}

// One or more octets, each of the class.
fn is_filled(s: &[u8], class: Class) -> bool
    ensures { result ≡ (filled s.now and all (belongs class) s.now) }
{
    !s.is_empty() && all_in(s, class)
}

// No control character but tab.
pub fn all_plain(s: &[u8]) -> bool
    ensures { result ≡ all plain_octet s.now }
{
    all_in(s, Class::Plain)
}

// No control character but tab and newline.
pub fn all_text(s: &[u8]) -> bool
    ensures { result ≡ all text_octet s.now }
{
    all_in(s, Class::Text)
}

// One or more digits.
pub fn all_digits(s: &[u8]) -> bool
    ensures { result ≡ digits s.now }
{
    is_filled(s, Class::Digit)
}

// A name: one or more letters, digits and hyphens.
pub fn is_name(s: &[u8]) -> bool
    ensures { result ≡ is_name s.now }
{
    is_filled(s, Class::Name)
}

// A name in lowercase.
pub fn is_lower_name(s: &[u8]) -> bool
    ensures { result ≡ is_lower_name s.now }
{
    is_filled(s, Class::LowerName)
}

// The octet at i, or 0 where there is none, as its clause and the definitions that cite it say.
pub fn peek(s: &[u8], i: usize) -> u8
    ensures { result ≡ get_or s.now i 0 }
{
    s.get(i).copied().unwrap_or(0)
}

// The same octets in one case. By `zip` and `all` it took a third longer.
pub(crate) fn same_in(a: &[u8], b: &[u8], case: Case) -> bool
    ensures { result ≡ same (map (cased case) a.now) (map (cased case) b.now) }
{
    if a.len() != b.len() {
        return false;
    }
    for (i, &x) in a.iter().enumerate() {
        if case.turn(x) != case.turn(b[i]) {
            return false;
        }
    }
    true
}

// The same octets.
pub fn same(a: &[u8], b: &[u8]) -> bool
    ensures { result ≡ same a.now b.now }
{
    a == b
}

// The same name, without case.
pub fn same_name(a: &[u8], b: &[u8]) -> bool
    ensures { result ≡ same_name a.now b.now }
{
    same_in(a, b, Case::Upper)
}

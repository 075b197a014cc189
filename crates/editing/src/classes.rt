// Document 01, 'Editing': 'Each of the 256 byte values has one class.'
ghost use Rattle.std.specs.Prelude.{◌≡◌};
ghost use Rattle.rules.specs.Classes.{class_of};
ghost use Rattle.editing.specs.classes.Entries.{entry_of};

use rules::Class;

// b is a blank, l a letter or underscore, c a control, o any other; a row holds 32 byte values.
const CLASSES: [u8; 256] = *b"\
    cccccccccbcccccccccccccccccccccc\
    booooooooooooooooooooooooooooooo\
    ollllllllllllllllllllllllllooool\
    ollllllllllllllllllllllllllooooc\
    oooooooooooooooooooooooooooooooo\
    oooooooooooooooooooooooooooooooo\
    oooooooooooooooooooooooooooooooo\
    oooooooooooooooooooooooooooooooo";

// The table's entry for the byte b.
fn entry(b: u8) -> u8
    ensures { result ≡ entry_of (class_of b) }
{
    CLASSES[b as usize]
}

pub(crate) fn class_of(b: u8) -> Class
    ensures { result ≡ class_of b }
{
    match entry(b) {
        b'b' => Class::Blank,
        b'l' => Class::Letter,
        b'c' => Class::Control,
        _ => Class::Other,
    }
}

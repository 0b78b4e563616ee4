//! The bytes of the format, by the names that ASCII has for them.
ghost use Rattle.std.specs.Prelude.{◌≡◌, [], ◌∷◌, codes};

use crate::number::TIME_FORM;

pub const TAB: u8 = b'\t';

pub const LINE_FEED: u8 = b'\n';

pub const SPACE: u8 = b' ';

pub const HASH: u8 = b'#';

pub const PERCENT: u8 = b'%';

pub const COMMA: u8 = b',';

pub const MINUS: u8 = b'-';

pub const POINT: u8 = b'.';

pub const SLASH: u8 = b'/';

pub const DIGIT_0: u8 = b'0';

pub const DIGIT_5: u8 = b'5';

pub const COLON: u8 = b':';

pub const EQUALS: u8 = b'=';

pub const AT: u8 = b'@';

pub const CAPITAL_D: u8 = b'D';

pub const CAPITAL_M: u8 = b'M';

pub const CAPITAL_N: u8 = b'N';

pub const CAPITAL_T: u8 = b'T';

pub const CAPITAL_V: u8 = b'V';

pub const UNDERSCORE: u8 = b'_';

pub const SMALL_C: u8 = b'c';

pub const SMALL_D: u8 = b'd';

pub const SMALL_I: u8 = b'i';

pub const SMALL_N: u8 = b'n';

pub const SMALL_R: u8 = b'r';

pub const SMALL_T: u8 = b't';

pub const SMALL_U: u8 = b'u';

pub const SMALL_V: u8 = b'v';

pub const SMALL_W: u8 = b'w';

pub const SMALL_X: u8 = b'x';

pub const SMALL_Y: u8 = b'y';

/// The bytes that code and definitions share are those that ASCII has for these characters.
pub fn shared_numbers()
    ensures blanks { codes "\t\n " ≡ TAB ∷ LINE_FEED ∷ SPACE ∷ [] }
    ensures marks { codes "#%,-./:=@_" ≡ HASH ∷ PERCENT ∷ COMMA ∷ MINUS ∷ POINT ∷ SLASH ∷ COLON ∷ EQUALS ∷ AT ∷ UNDERSCORE ∷ [] }
    ensures digits { codes "05" ≡ DIGIT_0 ∷ DIGIT_5 ∷ [] }
    ensures capitals { codes "DMNTV" ≡ CAPITAL_D ∷ CAPITAL_M ∷ CAPITAL_N ∷ CAPITAL_T ∷ CAPITAL_V ∷ [] }
    ensures kinds { codes "nwr" ≡ SMALL_N ∷ SMALL_W ∷ SMALL_R ∷ [] }
    ensures letters { codes "vdctiuxy" ≡ SMALL_V ∷ SMALL_D ∷ SMALL_C ∷ SMALL_T ∷ SMALL_I ∷ SMALL_U ∷ SMALL_X ∷ SMALL_Y ∷ [] }
    ensures time { codes "0000-00-00T00:00:00Z" ≡ TIME_FORM }
{}

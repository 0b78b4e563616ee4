//! The causes against a part of a style, in their order.
ghost use Rattle.std.specs.Prelude.{◌≡◌, Bool};
ghost use Rattle.style_read.specs.declared.fault.StyleWhy.{StyleWhy};
ghost use Rattle.style_read.specs.Causes as spec;

use crate::fault::StyleWhy;

/// The order in which causes are asked of a part.
pub(crate) const ORDER: [StyleWhy; 9] = [
    StyleWhy::TooMany,
    StyleWhy::UnknownKey,
    StyleWhy::MissingKey,
    StyleWhy::WrongType,
    StyleWhy::Name,
    StyleWhy::SourceGeometry,
    StyleWhy::Condition,
    StyleWhy::Column,
    StyleWhy::UnknownSelection,
];

/// A part of a document, to which causes may apply.
pub(crate) trait Part {
    ghost has: { Self → StyleWhy → Bool };

    /// Whether a cause applies, whatever is with the others.
    fn has(&self, why: StyleWhy) -> bool
        ensures has { result ≡ has self.now why };
}

/// The first cause against a part.
pub(crate) fn first_cause<P: Part>(part: &P) -> Option<StyleWhy>
    ensures cause { result ≡ spec.first_cause (P.has part.now) }
{
    for why in ORDER {
        if part.has(why) {
            return Some(why);
        }
    }
    None
}

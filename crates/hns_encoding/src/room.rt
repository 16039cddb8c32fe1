// Whether a field lies within a slice, and what is missing where it does not. A position past the end is answered like
// any other. Size, position and width stay three numbers: a step has the size of its slice, the position of its cursor
// and the width of its field, and no value holds all three.
ghost use Rattle.std.specs.Prelude.{◌≡◌};
ghost use Rattle.hns_encoding.specs.Cursor.{within, lacking};

// Whether `width` elements from `position` on lie within `size` of them.
pub fn fits(size: usize, position: usize, width: usize) -> bool
    ensures { result ≡ within size position width }
{
    position <= size && width <= size - position
}

// How many elements more that would take, at most the largest usize.
pub fn missing(size: usize, position: usize, width: usize) -> usize
    ensures { result ≡ lacking size position width }
{
    if position <= size {
        width.saturating_sub(size - position)
    } else {
        (position - size).saturating_add(width)
    }
}

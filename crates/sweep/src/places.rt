// Lists of places in an expression: what the trees there come to, the places of their low halves, and the places past
// them.
ghost use Rattle.std.specs.Prelude.{◌≡◌, ◌≤◌, Some, length};
ghost use Rattle.std.proofs.lemmas.List.Edits.{sets};
ghost use Rattle.bintree.specs.declared.Colour.TheVariants.{White};
ghost use Rattle.bintree.specs.Shape.{symbol_of};
ghost use Rattle.sweep.specs.Places.{settled, past_at, past_all, low_places, pulled, Inside};

// The place past the tree that begins at `at`.
fn past(expression: &[u8], at: usize) -> usize
    ensures { result ≡ past_at expression.now at }
{
    let mut more: usize = 0;
    for place in at..expression.len() {
        if expression[place] == b'(' {
            more += 1;
        } else if more == 0 {
            return place + 1;
        } else {
            more -= 1;
        }
    }
    at.max(expression.len())
}

// What the trees come to that stand at some places: the symbol of a leaf, `B` where one is that, or none where none is
// that and one is halved.
pub(crate) fn settle(expression: &[u8], places: &[usize]) -> Option<u8>
    requires { Inside expression.now places.now }
    ensures { result ≡ settled expression.now (Some (symbol_of White)) places.now }
{
    let mut found = Some(b'W');
    for place in places {
        let symbol = expression[*place];
        if symbol == b'B' {
            return Some(symbol);
        }
        if symbol == b'(' {
            found = None;
        }
    }
    found
}

// Writes the places of the low halves of those that are halved, and gives their number. `next` is counted by hand, here
// and in `pull_back`, since only halved trees have one.
pub(crate) fn push_lows(expression: &[u8], places: &[usize], lows: &mut [usize]) -> usize
    requires inside { Inside expression.now places.now }
    requires lows_fit { length places.now ≤ length lows.old }
    ensures value { result ≡ length (low_places expression.now places.now) }
    ensures lows_after { lows.new ≡ sets lows.old 0 (low_places expression.now places.now) }
{
    let mut next = 0;
    for place in places {
        if expression[*place] == b'(' {
            lows[next] = *place + 1;
            next += 1;
        }
    }
    next
}

// Copies places, one by one: `copy_from_slice` would have the archive for C need `memmove` of its host.
pub(crate) fn copy_places(from: &[usize], to: &mut [usize])
    requires { length to.old ≡ length from.now }
    ensures { to.new ≡ from.now }
{
    for i in 0..from.len() {
        to[i] = from[i];
    }
}

// Past the trees: each place becomes that past its tree.
pub(crate) fn push_past(expression: &[u8], places: &mut [usize])
    ensures { places.new ≡ past_all expression.now places.old }
{
    for place in places.iter_mut() {
        *place = past(expression, *place);
    }
}

// Back from the halves: the place of a halved tree becomes the next of the ends, which are past the high halves, and
// that of a leaf the place behind it.
pub(crate) fn pull_back(expression: &[u8], places: &mut [usize], ends: &[usize])
    requires inside { Inside expression.now places.old }
    requires ends_suffice { length places.old ≤ length ends.now }
    ensures { places.new ≡ pulled expression.now places.old ends.now }
{
    let mut next = 0;
    for place in places.iter_mut() {
        if expression[*place] == b'(' {
            *place = ends[next];
            next += 1;
        } else {
            *place += 1;
        }
    }
}

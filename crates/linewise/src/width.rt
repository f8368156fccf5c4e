// A scan that a width sets: what a kind of layer that goes line by line has of its own, its numbers and its records.
ghost use Rattle.std.specs.Prelude.{◌≡◌, ℕ, ◌*◌, ◌≤◌, ◌↔◌, List, length, ◌==◌};
ghost use Rattle.lines.specs.Transducers.{pieces_by, first_by, reach_by};
ghost use Rattle.places.specs.declared.change.Change.{Change};
ghost use Rattle.places.specs.Changes.{Kept};
ghost use Rattle.view.specs.declared.order.Order.{Order};
ghost use Rattle.view.specs.Layers.{Records, pieces, growth, Fit, follow, raised, lines_raised};
ghost use Rattle.view.specs.Kinds.{Countable};
ghost use Rattle.view.specs.Orders.{has_verb, own_refusal, obeyed, obeyed_change, width_causes, width_change};
ghost use Rattle.view.specs.Refusals.{first_cause};
ghost use Rattle.view.specs.Seen.{text_at};

use crate::scan::Scan;
use view::view::View;

// A scan that has a width, between two numbers; an order sets another one.
pub trait Width: Scan + Copy {
    // the width of a scan, and the records of a layer with a width
    ghost width_of: { Self → ℕ };

    ghost records_at: { ℕ → Records };

    // the place from which on a text is shown anew when it changes at a place
    ghost anew_from: { List ℕ → ℕ → ℕ };

    ghost NARROWEST: { ℕ };

    ghost WIDEST: { ℕ };

    ghost OPENING: { ℕ };

    ghost FACTOR: { ℕ };

    ghost VERB: { ℕ };

    // Between what the widths lie, and the one at opening.
    const NARROWEST: u32;

    const WIDEST: u32;

    const OPENING: u32;

    // How many codes are shown of one at most.
    const FACTOR: u32;

    // The verb that sets the width.
    const VERB: char;

    // The scan of a width. Constant time.
    fn at_width(width: u32) -> Self
        requires low { NARROWEST ≤ width }
        requires high { width ≤ WIDEST }
        ensures { width_of result ≡ width };

    // From where on the text of `below` is shown anew when it has changed at `place`. Costs no more than a question for
    // each code of the line in front of it.
    fn anew<V: View>(below: &V, place: u32) -> u32
        requires sound { V.Meaning.sound below.now }
        requires within { place ≤ length (text_at V.Meaning below.now) }
        ensures { result ≡ anew_from (text_at V.Meaning below.now) place };

    ghost opens: { (NARROWEST ≤ OPENING) × (OPENING ≤ WIDEST) };

    ghost fits: { (w n : ℕ) → NARROWEST ≤ w → w ≤ WIDEST → Fit (records_at w) n };

    ghost takes: { (w n : ℕ) → Fit (records_at w) n → (NARROWEST ≤ w) × (w ≤ WIDEST) };

    ghost grows: { (w n : ℕ) → (growth (records_at w) n ≡ FACTOR * n) × (Countable (records_at w) n ↔ (FACTOR * n ≤ 1073741824)) };

    ghost speaks: { (w v : ℕ) → has_verb (records_at w) v ≡ (v == VERB) };

    // an order sets another width, if it is in the range
    ghost refuses: { (w n a b : ℕ) (o : Order) (c : List ℕ) → own_refusal (records_at w) n a b o c ≡ first_cause (width_causes NARROWEST WIDEST o) };

    ghost obeys: { (w a b : ℕ) (o : Order) (c : List ℕ) → obeyed (records_at w) a b o c ≡ records_at o.x };

    ghost changes: { (w a b : ℕ) (xs : List ℕ) (o : Order) (c : List ℕ) → obeyed_change (records_at w) xs a b o c ≡ width_change (records_at w) (records_at o.x) xs };

    // a change of the text below leaves the width
    ghost stays: { (w : ℕ) (c : Change) → follow (records_at w) c ≡ records_at w };

    ghost raises: { (w : ℕ) (xs ys : List ℕ) (c : Change) → raised (records_at w) xs ys c ≡ lines_raised (records_at w) xs ys c (anew_from xs c.start) };

    // what is shown of each text is what the records say, and of each code no more than the factor does
    ghost shows: { (s : Self) (xs : List ℕ) → pieces (records_at (width_of s)) xs ≡ pieces_by (Self.transducer s) xs };

    ghost shows_few: { (s : Self) (k x : ℕ) → length ((Self.transducer s).show k x) ≤ FACTOR };

    // the lines shown anew begin at or before the change, and as far in the text above as before it
    ghost anew_before: { (xs : List ℕ) (p : ℕ) → anew_from xs p ≤ p };

    ghost anew_same: { (s : Self) (xs ys : List ℕ) (c : Change) → Kept xs ys c → first_by (Self.transducer s) xs (anew_from xs c.start) ≡ reach_by (Self.transducer s) ys (anew_from ys c.start) };
}

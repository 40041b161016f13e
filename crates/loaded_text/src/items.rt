//! The items of a list.

ghost use Rattle.std.specs.Prelude.{◌≡◌, ℕ, ◌++◌, ◌∷◌, List, Some, false, true, IfSome, not};
ghost use Rattle.serde_json.specs.Written.{comma_if};
ghost use Rattle.loaded_text.specs.Leads.{StartsWithNoEnd};

use crate::text::Text;

impl<'a> Text<'a> {
    /// Whether there is one more item, the first or a later one, before which a comma is taken. Where there is none the
    /// end of the list is taken.
    pub(crate) fn has_item(&mut self, is_first: bool) -> Option<bool>
        ensures more { IfSome result (λ more. more ≡ true → self.old.rest.now ≡ comma_if (not is_first) ++ self.new.rest.now) }
        ensures end { IfSome result (λ more. more ≡ false → self.old.rest.now ≡ 93 ∷ self.new.rest.now) }
        ensures reads_more { (tail : List ℕ) → StartsWithNoEnd tail → self.old.rest.now ≡ comma_if (not is_first) ++ tail → (result ≡ Some true) × (self.new.rest.now ≡ tail) }
        ensures reads_end { (tail : List ℕ) → self.old.rest.now ≡ 93 ∷ tail → (result ≡ Some false) × (self.new.rest.now ≡ tail) }
    {
        if self.take(b"]") {
            return Some(false);
        }
        if is_first {
            return Some(true);
        }
        self.expect(b",")?;
        Some(true)
    }
}

//! Truths.

ghost use Rattle.std.specs.Prelude.{◌≡◌, IfSome};
ghost use Rattle.serde_json.specs.Data.{boolean};
ghost use Rattle.loaded_text.specs.Leads.{IsAny, Leads, Reads};

use crate::text::Text;

impl<'a> Text<'a> {
    /// A truth, after these bytes.
    pub(crate) fn truth(&mut self, lead: &[u8]) -> Option<bool>
        ensures text { IfSome result (λ holds. Leads lead.now (boolean holds) self.old.rest.now self.new.rest.now) }
        ensures reads { Reads boolean IsAny lead.now self.old.rest.now result self.new.rest.now }
    {
        self.expect(lead)?;
        if self.take(b"true") {
            return Some(true);
        }
        self.expect(b"false")?;
        Some(false)
    }
}

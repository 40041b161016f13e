//! What stands in a text with spaces between its parts: marks, and values that hold no others.

ghost use Rattle.std.specs.Prelude.{◌≡◌, ◌≤◌, ◌∷◌, true, false, length, take, IfSome};
ghost use Rattle.json.specs.Lex.{between, lex};
ghost use Rattle.json.specs.Print.{escape};
ghost use Rattle.json.specs.Run.{is_plain};
ghost use Rattle.json.specs.Word.{ends_word, is_operator, is_space};
ghost use Rattle.loaded_text.specs.Canonical.{IsBare, IsLeaf, IsPlainText};

use crate::text::Text;

/// Whether a byte stands for itself in a text between quotes.
fn is_plain(byte: u8) -> bool
    ensures { result ≡ is_plain byte }
{
    !(byte == b'"' || byte == b'\\' || byte < 32)
}

/// How many bytes from the first on stand for themselves between quotes.
#[inline(never)]
fn plain_size(bytes: &[u8]) -> usize
    ensures within { result ≤ length bytes.now }
    ensures plain { escape (take result bytes.now) ≡ take result bytes.now }
{
    for size in 0..bytes.len() {
        if !is_plain(bytes[size]) {
            return size;
        }
    }
    bytes.len()
}

fn is_space(byte: u8) -> bool
    ensures { result ≡ is_space byte }
{
    byte == b' ' || byte == b'\t' || byte == b'\n' || byte == b'\r'
}

fn is_operator(byte: u8) -> bool
    ensures { result ≡ is_operator byte }
{
    byte == b'{' || byte == b'}' || byte == b'[' || byte == b']' || byte == b':' || byte == b','
}

impl<'a> Text<'a> {
    pub(crate) fn skip_spaces(&mut self)
        ensures { lex between self.new.rest.now ≡ lex between self.old.rest.now }
    {
        while let Some((byte, rest)) = self.rest.split_first() {
            if !is_space(*byte) {
                return;
            }
            self.rest = rest;
        }
    }

    /// Takes this byte if it stands first.
    pub(crate) fn take_byte(&mut self, byte: u8) -> bool
        ensures taken { result ≡ true → self.old.rest.now ≡ byte ∷ self.new.rest.now }
        ensures kept { result ≡ false → self.new.rest.now ≡ self.old.rest.now }
    {
        match self.rest.split_first() {
            Some((first, rest)) if *first == byte => {
                self.rest = rest;
                true
            }
            _ => false,
        }
    }

    /// Passes over spaces, and takes this byte if it stands behind them.
    pub(crate) fn mark(&mut self, byte: u8) -> bool
        ensures taken { result ≡ true → lex between self.old.rest.now ≡ lex between (byte ∷ self.new.rest.now) }
        ensures kept { result ≡ false → lex between self.new.rest.now ≡ lex between self.old.rest.now }
    {
        self.skip_spaces();
        self.take_byte(byte)
    }

    /// Whether a word has ended before what is left.
    pub(crate) fn is_word_over(&self) -> bool
        ensures { result ≡ ends_word self.now.rest.now }
    {
        match self.rest.first() {
            Some(byte) => is_operator(*byte) || is_space(*byte),
            None => true,
        }
    }

    /// Takes a text between quotes in which each byte stands for itself, and answers what is between them.
    pub(crate) fn plain_text(&mut self) -> Option<&'a [u8]>
        ensures { IfSome result (λ s. IsPlainText s.now self.old.rest.now self.new.rest.now) }
    {
        if !self.take_byte(b'"') {
            return None;
        }
        let (inner, behind) = self.rest.split_at(plain_size(self.rest));
        self.rest = behind;
        if self.take_byte(b'"') {
            Some(inner)
        } else {
            None
        }
    }

    /// A whole number of 64 bits.
    pub(crate) fn bare_number(&mut self) -> Option<()>
        ensures { IfSome result (λ _. IsBare self.old.rest.now self.new.rest.now) }
    {
        if self.rest.first() == Some(&b'-') {
            self.integer(&[])?;
        } else {
            self.natural(&[])?;
        }
        Some(())
    }

    /// A truth or null.
    pub(crate) fn bare_word(&mut self) -> Option<()>
        ensures { IfSome result (λ _. IsBare self.old.rest.now self.new.rest.now) }
    {
        if self.take(b"true") {
            return Some(());
        }
        if self.take(b"false") {
            return Some(());
        }
        if self.take(b"null") {
            return Some(());
        }
        None
    }

    /// A truth, null or a whole number of 64 bits.
    pub(crate) fn bare(&mut self) -> Option<()>
        ensures { IfSome result (λ _. IsBare self.old.rest.now self.new.rest.now) }
    {
        if *self.rest.first()? > b'9' {
            return self.bare_word();
        }
        self.bare_number()
    }

    /// What holds no other values.
    pub(crate) fn leaf(&mut self) -> Option<()>
        ensures { IfSome result (λ _. IsLeaf self.old.rest.now self.new.rest.now) }
    {
        if self.rest.first() == Some(&b'"') {
            self.plain_text()?;
            return Some(());
        }
        self.bare()?;
        if self.is_word_over() { Some(()) } else { None }
    }
}

// Text in a buffer: decimal numbers and the program's lines.

#![tactic(auto)]

ghost use Rattle.std.specs.Prelude.{◌≡◌, ◌+◌, ◌≤◌, length, take};

use run_tally::Tally;

// An answer's code, rows changed and net.
#[derive(Clone, Copy)]
pub struct Figures {
    pub code: u64,
    pub changed: u64,
    pub net: i64,
}

// A buffer, and how many of its bytes hold text. A writer of std's `fmt` does not serve: where its buffer is full it fails, and no
// clause says that it doesn't where there is room.
#[derive(Drop)]
pub struct Text<'a> {
    pub out: &'a mut [u8],
    pub used: usize,
}

impl Text<'_> {
    ghost use Rattle.lines.specs.Text.{decimal, signed_text, answer_line, tally_line, Puts};

    // The text so far.
    pub fn as_bytes(&self) -> &[u8]
        requires { self.now.used ≤ length self.now.out.now }
        ensures { result.now ≡ take self.now.used self.now.out.now }
    {
        &self.out[..self.used]
    }

    // Writes a text.
    pub fn put(&mut self, text: &[u8])
        requires { self.old.used + length text.now ≤ length self.old.out.now }
        ensures put { Puts text.now self.old self.new }
        ensures used { self.new.used ≡ self.old.used + length text.now }
    {
        let end = self.used + text.len();
        self.out[self.used..end].copy_from_slice(text);
        self.used = end;
    }

    // Writes a number in decimal digits.
    pub fn put_decimal(&mut self, n: u64)
        requires { self.old.used + 20 ≤ length self.old.out.now }
        ensures put { Puts (decimal n) self.old self.new }
        ensures used { self.new.used ≤ self.old.used + 20 }
    {
        let mut digits = [0u8; 20];
        let k = io::decimal(n, &mut digits);
        self.put(&digits[..k]);
    }

    // Writes a signed number: a minus where it is negative, and its magnitude.
    pub fn put_signed(&mut self, n: i64)
        requires { self.old.used + 21 ≤ length self.old.out.now }
        ensures put { Puts (signed_text n) self.old self.new }
        ensures used { self.new.used ≤ self.old.used + 21 }
    {
        if n < 0 {
            self.put(b"-");
        }
        self.put_decimal(n.unsigned_abs());
    }

    // Writes the line of an answer.
    pub fn put_answer_line(&mut self, figures: Figures)
        requires { self.old.used + 64 ≤ length self.old.out.now }
        ensures put { Puts (answer_line figures.code figures.changed figures.net) self.old self.new }
        ensures used { self.new.used ≤ self.old.used + 64 }
    {
        self.put_decimal(figures.code);
        self.put(b",");
        self.put_decimal(figures.changed);
        self.put(b",");
        self.put_signed(figures.net);
        self.put(b"\n");
    }

    // Writes the line of the tally.
    pub fn put_tally_line(&mut self, tally: Tally)
        requires { self.old.used + 85 ≤ length self.old.out.now }
        ensures put { Puts (tally_line tally.accepted tally.refused tally.rows) self.old self.new }
        ensures used { self.new.used ≤ self.old.used + 85 }
    {
        self.put(b"accepted,");
        self.put_decimal(tally.accepted);
        self.put(b",refused,");
        self.put_decimal(tally.refused);
        self.put(b",rows,");
        self.put_decimal(tally.rows);
        self.put(b"\n");
    }
}

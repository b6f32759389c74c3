// hoofrun: reads a schema and calls from standard input, runs the calls on a fresh area, prints a line for each, and the tally.

#![tactic(auto)]

ghost use Rattle.std.specs.Prelude.{◌≡◌, ℕ, ◌*◌, ◌≤◌, length, take, IfOk, OnErr};
ghost use Rattle.std.specs.Io.{ReadsAtMost};
ghost use Rattle.laws.specs.Reached.{Reached};
ghost use Rattle.call_lines.specs.Runs.{call_count, after};

use lines::Text;
use reports::{Progress, Reporter};
use rules::Answer;
use run_tally::Tally;
use std::io;
use std::io::{Read, Write};

// 65,536 zeros. The contract gives their number alone.
fn large_buffer() -> [u8; 65536]
    ensures { 65536 ≡ length result }
{
    [0; 65536]
}

// Reads until the buffer is full or the input ends; answers how many bytes it put at the start.
// A read that fails ends it with that read's error. Each read says how far the next begins, so no range counts them.
fn read_full(reader: &mut impl Read, bytes: &mut [u8]) -> io::Result<usize>
    ensures { ReadsAtMost result bytes.new }
{
    let mut done = 0;
    while done < bytes.len() {
        let n = reader.read(&mut bytes[done..])?;
        if n == 0 {
            break;
        }
        done += n;
    }
    Ok(done)
}

// Reads the schema: as many bytes as its whole-length field says, or all there are if fewer.
fn read_schema(reader: &mut impl Read, bytes: &mut [u8]) -> io::Result<usize>
    requires { 65536 ≤ length bytes.old }
    ensures ok { IfOk result (λ n. n ≤ length bytes.old) }
    ensures err { OnErr result (length bytes.new ≡ length bytes.old) }
{
    let header = read_full(reader, &mut bytes[..16])?;
    if header < 16 {
        return Ok(header);
    }
    let length = numbers::half_at(bytes, 14);
    if length <= 16 {
        return Ok(length);
    }
    let rest = read_full(reader, &mut bytes[16..length])?;
    Ok(16 + rest)
}

// A run: the schema, an area, and what reports its answers. That calls led to the area stands in the clauses: `Reached`
// says by which calls, so it is no proposition and no ghost field.
#[derive(Drop)]
struct Run<'a> {
    schema: &'a [u8],
    area: &'a mut [i64],
    reporter: Reporter<'a>,
    ghost room: { 65536 ≤ length reporter.text.out.now },
}

impl Run<'_> {
    // Reads a piece of the calls, runs it and prints its lines; answers how many bytes it read.
    // After an error the area is where the calls of the first n bytes lead: of none where the read failed,
    // of all that were read where the write did.
    fn run_piece(
        &mut self,
        reader: &mut impl Read,
        writer: &mut impl Write,
        input: &mut [u8],
    ) -> io::Result<usize>
        requires { Reached self.old.schema.now self.old.area.now × (64 * call_count (length input.old) ≤ 65536) }
        ensures ok { IfOk result
            (λ n. (self.new.area.now, self.new.reporter.tally) ≡ after self.old.schema.now (take n input.new) self.old.area.now self.old.reporter.tally) }
        ensures err { OnErr result
            ((n : ℕ) × (self.new.area.now ≡ (after self.old.schema.now (take n input.new) self.old.area.now self.old.reporter.tally).0)) }
        ensures same { self.new.schema.now ≡ self.old.schema.now }
        ensures reached { Reached self.new.schema.now self.new.area.now }
    {
        let n = read_full(reader, input)?;
        self.reporter.text.used = 0;
        call_lines::run_calls(self.schema, self.area, &input[..n], &mut self.reporter);
        writer.write_all(self.reporter.text.as_bytes())?;
        Ok(n)
    }

    // Runs the calls piece by piece until the input ends: at a piece that is not full.
    fn run_input(&mut self, reader: &mut impl Read, writer: &mut impl Write) -> io::Result<Progress>
        requires { Reached self.old.schema.now self.old.area.now }
        ensures same { self.new.schema.now ≡ self.old.schema.now }
        ensures reached { Reached self.new.schema.now self.new.area.now }
    {
        let mut input = [0u8; 65472];
        for _ in 0..u64::MAX {
            let n = self.run_piece(reader, writer, &mut input)?;
            if n < input.len() {
                break;
            }
        }
        Ok(self.reporter.progress())
    }
}

// Makes the area fresh and runs the calls, or refuses the schema.
fn run_area(
    reader: &mut impl Read,
    writer: &mut impl Write,
    schema: &[u8],
    area: &mut [i64],
    out: &mut [u8],
) -> io::Result<Progress>
    requires { 65536 ≤ length out.old }
{
    let mut reporter = Reporter {
        tally: Tally::default(),
        text: Text { out, used: 0 },
    };
    let answer = fresh_area::make_fresh(schema, area);
    match answer {
        Ok(_) => {
            let mut run = Run {
                schema,
                area,
                reporter,
            };
            run.run_input(reader, writer)
        }
        Err(_) => {
            reporter.report(answer);
            writer.write_all(reporter.text.as_bytes())?;
            Ok(reporter.progress())
        }
    }
}

// Heading, schema, calls, tally: on as many of the words as the schema needs.
fn main(rt: HostRuntime) -> io::Result<()> {
    let mut bytes = large_buffer();
    let mut words = [0i64; 8192];
    let mut out = large_buffer();
    let mut reader = rt.stdin();
    let mut writer = rt.stdout();
    writer.write_all(b"code,changed,net\n")?;
    let length = read_schema(&mut reader, &mut bytes)?;
    let schema = &bytes[..length];
    let n = fresh_area::words_taken(schema, words.len());
    let progress = run_area(&mut reader, &mut writer, schema, &mut words[..n], &mut out)?;
    let mut text = Text {
        out: &mut out,
        used: 0,
    };
    text.put_tally_line(progress.tally);
    writer.write_all(text.as_bytes())
}

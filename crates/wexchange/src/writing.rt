//! Writes exchange files, with a hasher beside that has all that went out.
ghost use Rattle.std.specs.Prelude.{◌≡◌, ℕ, List, ◌++◌, ◌∷◌, [], OnOk, OnErr};
ghost use Rattle.std.specs.Io.KnownBytes.{Appends};
ghost use Rattle.std.specs.List.{flat_map};
ghost use Rattle.wlines.specs.Pending.{IsSoundWriter};
ghost use Rattle.wrecords.specs.Forms.{name_words};
ghost use Rattle.wexchange.specs.declared.version.Version.TheVariants.{Two};
ghost use Rattle.std.specs.FinMap as map;
ghost use Rattle.wentries.specs.Holding.{told_of};
ghost use Rattle.wentries.specs.Knowledge.{Live};
ghost use Rattle.wexchange.specs.Files.{counted, digest_of, digest_text, end_text, file_of, head, record_text, table_text};
ghost use Rattle.wexchange.specs.Hashing.{Has};
ghost use Rattle.wexchange.specs.Writing.{AppendsFront};

use crate::hashed::Hashed;
use crate::hashing::Hashing;
use crate::seal::digits_of;
use itoa::Buffer;
use std::io::Write;
use wlines::{WriteFault, write_reply};
use wset::{Known, SegmentSet};
use wvalues::{Counted, Name};

// Writes these bytes, one part after the other, or a front of them and then a fault.
fn write_parts<W: Write>(
    output: &mut Counted<W>,
    hasher: &mut Hashing<'_>,
    parts: &[&[u8]],
) -> Result<(), WriteFault>
    requires { IsSoundWriter output.old }
    ensures ok { OnOk result (Appends (W.contents output.old.inner) (W.contents output.new.inner) (flat_map (λ part. part.now) parts.now)) }
    ensures hashed { OnOk result ((text : List ℕ) → Has hasher.old text
        → Has hasher.new (text ++ flat_map (λ part. part.now) parts.now)) }
    ensures sound { OnOk result (IsSoundWriter output.new) }
    ensures front { OnErr result (AppendsFront (W.contents output.old.inner) (W.contents output.new.inner)
        (flat_map (λ part. part.now) parts.now)) }
    ensures failed { OnErr result (output.new.failures ≡ 1) }
{
    'parts: for part in parts {
        if let Err(fault) = write_reply(output, part) {
            return Err(fault);
        }
        hasher.update(part);
    }
    Ok(())
}

// Writes the record of a name without content.
fn write_mark<W: Write>(
    output: &mut Counted<W>,
    hasher: &mut Hashing<'_>,
    letter: &[u8],
    name: &Name,
) -> Result<(), WriteFault>
    requires { IsSoundWriter output.old }
    ensures ok { OnOk result (Appends (W.contents output.old.inner) (W.contents output.new.inner)
        (letter.now ++ (name_words name.now ++ 10 ∷ []))) }
    ensures hashed { OnOk result ((text : List ℕ) → Has hasher.old text
        → Has hasher.new (text ++ (letter.now ++ (name_words name.now ++ 10 ∷ [])))) }
    ensures sound { OnOk result (IsSoundWriter output.new) }
    ensures front { OnErr result (AppendsFront (W.contents output.old.inner) (W.contents output.new.inner)
        (letter.now ++ (name_words name.now ++ 10 ∷ []))) }
    ensures failed { OnErr result (output.new.failures ≡ 1) }
{
    let mut number = Buffer::new();
    let number = number.format(name.number()).as_bytes();
    write_parts(
        output,
        hasher,
        &[letter, name.origin(), b" ", number, b"\n"],
    )
}

// Writes the record of a content.
fn write_content<W: Write>(
    output: &mut Counted<W>,
    hasher: &mut Hashing<'_>,
    name: &Name,
    content: &[u8],
) -> Result<(), WriteFault>
    requires { IsSoundWriter output.old }
    ensures ok { OnOk result (Appends (W.contents output.old.inner) (W.contents output.new.inner)
        (record_text (name.now, Live content.now))) }
    ensures hashed { OnOk result ((text : List ℕ) → Has hasher.old text
        → Has hasher.new (text ++ record_text (name.now, Live content.now))) }
    ensures sound { OnOk result (IsSoundWriter output.new) }
    ensures front { OnErr result (AppendsFront (W.contents output.old.inner) (W.contents output.new.inner)
        (record_text (name.now, Live content.now))) }
    ensures failed { OnErr result (output.new.failures ≡ 1) }
{
    let mut number = Buffer::new();
    let mut len = Buffer::new();
    let number = number.format(name.number()).as_bytes();
    let len = len.format(content.len()).as_bytes();
    write_parts(
        output,
        hasher,
        &[
            b"S ",
            name.origin(),
            b" ",
            number,
            b" ",
            len,
            b"\n",
            content,
            b"\n",
        ],
    )
}

// Writes the record of a name, or of a floor.
fn write_record<W: Write>(
    output: &mut Counted<W>,
    hasher: &mut Hashing<'_>,
    name: &Name,
    known: Known<'_>,
) -> Result<(), WriteFault>
    requires { IsSoundWriter output.old }
    ensures ok { OnOk result (Appends (W.contents output.old.inner) (W.contents output.new.inner)
        (record_text (name.now, told_of known.entry))) }
    ensures hashed { OnOk result ((text : List ℕ) → Has hasher.old text
        → Has hasher.new (text ++ record_text (name.now, told_of known.entry))) }
    ensures sound { OnOk result (IsSoundWriter output.new) }
    ensures front { OnErr result (AppendsFront (W.contents output.old.inner) (W.contents output.new.inner)
        (record_text (name.now, told_of known.entry))) }
    ensures failed { OnErr result (output.new.failures ≡ 1) }
{
    match known {
        Known::Live(judged) => write_content(output, hasher, name, judged.bytes()),
        Known::Disputed => write_mark(output, hasher, b"D ", name),
        Known::Retired => write_mark(output, hasher, b"R ", name),
        Known::Floor => write_mark(output, hasher, b"U ", name),
    }
}

// Writes the records of a set.
fn write_records<W: Write>(
    set: &SegmentSet,
    output: &mut Counted<W>,
    hasher: &mut Hashing<'_>,
) -> Result<(), WriteFault>
    requires { IsSoundWriter output.old }
    ensures ok { OnOk result (Appends (W.contents output.old.inner) (W.contents output.new.inner)
        (flat_map record_text (map.entries set.now.view))) }
    ensures hashed { OnOk result ((text : List ℕ) → Has hasher.old text
        → Has hasher.new (text ++ flat_map record_text (map.entries set.now.view))) }
    ensures sound { OnOk result (IsSoundWriter output.new) }
    ensures front { OnErr result (AppendsFront (W.contents output.old.inner) (W.contents output.new.inner)
        (flat_map record_text (map.entries set.now.view))) }
    ensures failed { OnErr result (output.new.failures ≡ 1) }
{
    'names: for (name, known) in set.names() {
        if let Err(fault) = write_record(output, hasher, &name, known) {
            return Err(fault);
        }
    }
    Ok(())
}

// Writes the head of a file and the declaration.
fn write_start<W: Write>(
    set: &SegmentSet,
    output: &mut Counted<W>,
    hasher: &mut Hashing<'_>,
) -> Result<(), WriteFault>
    requires { IsSoundWriter output.old }
    ensures ok { OnOk result (Appends (W.contents output.old.inner) (W.contents output.new.inner) (head Two ++ table_text set.now.schema)) }
    ensures hashed { OnOk result ((text : List ℕ) → Has hasher.old text
        → Has hasher.new (text ++ (head Two ++ table_text set.now.schema))) }
    ensures sound { OnOk result (IsSoundWriter output.new) }
    ensures front { OnErr result (AppendsFront (W.contents output.old.inner) (W.contents output.new.inner)
        (head Two ++ table_text set.now.schema)) }
    ensures failed { OnErr result (output.new.failures ≡ 1) }
{
    let text = set.schema().text();
    let mut len = Buffer::new();
    let len = len.format(text.len()).as_bytes();
    let head: &[u8] = b"WSX2\n";
    write_parts(output, hasher, &[head, b"T ", len, b"\n", text, b"\n"])
}

// Writes the line of the end.
fn write_end<W: Write>(
    output: &mut Counted<W>,
    hasher: &mut Hashing<'_>,
    count: usize,
) -> Result<(), WriteFault>
    requires { IsSoundWriter output.old }
    ensures ok { OnOk result (Appends (W.contents output.old.inner) (W.contents output.new.inner) (end_text count)) }
    ensures hashed { OnOk result ((text : List ℕ) → Has hasher.old text → Has hasher.new (text ++ end_text count)) }
    ensures sound { OnOk result (IsSoundWriter output.new) }
    ensures front { OnErr result (AppendsFront (W.contents output.old.inner) (W.contents output.new.inner) (end_text count)) }
    ensures failed { OnErr result (output.new.failures ≡ 1) }
{
    let mut buffer = Buffer::new();
    let count = buffer.format(count).as_bytes();
    write_parts(output, hasher, &[b"E ", count, b"\n"])
}

// Writes what stands before the line of the digest.
fn write_counted<W: Write>(
    set: &SegmentSet,
    output: &mut Counted<W>,
    hasher: &mut Hashing<'_>,
) -> Result<(), WriteFault>
    requires { IsSoundWriter output.old }
    ensures ok { OnOk result (Appends (W.contents output.old.inner) (W.contents output.new.inner)
        (counted Two set.now.schema (map.entries set.now.view))) }
    ensures hashed { OnOk result ((text : List ℕ) → Has hasher.old text
        → Has hasher.new (text ++ counted Two set.now.schema (map.entries set.now.view))) }
    ensures sound { OnOk result (IsSoundWriter output.new) }
    ensures front { OnErr result (AppendsFront (W.contents output.old.inner) (W.contents output.new.inner)
        (counted Two set.now.schema (map.entries set.now.view))) }
    ensures failed { OnErr result (output.new.failures ≡ 1) }
{
    write_start(set, output, hasher)?;
    write_records(set, output, hasher)?;
    write_end(output, hasher, set.name_count())
}

// Writes the line of the digest of all that went out.
fn write_digest<W: Write>(output: &mut Counted<W>, hasher: Hashing<'_>) -> Result<(), WriteFault>
    requires { IsSoundWriter output.old }
    ensures ok { OnOk result ((text : List ℕ) → Has hasher.entry text
        → Appends (W.contents output.old.inner) (W.contents output.new.inner) (digest_text text)) }
    ensures sound { OnOk result (IsSoundWriter output.new) }
    ensures front { OnErr result ((text : List ℕ) → Has hasher.entry text
        → AppendsFront (W.contents output.old.inner) (W.contents output.new.inner) (digest_text text)) }
    ensures failed { OnErr result (output.new.failures ≡ 1) }
{
    let digits = digits_of(hasher.finish());
    let none = Hashed::bare(&[]);
    let mut beside = Hashing::new(&none);
    write_parts(output, &mut beside, &[b"H ", &digits, b"\n"])
}

/// Writes the file of a set: what it knows of each name and its floors, under its declaration. A fault comes only where the
/// writer failed, and what went out is then a beginning of the file. It takes no memory. As long as what goes out is a beginning of
/// the old bytes it is compared with them, and then hashed from the last of their states there on.
pub fn write_over<W: Write>(
    set: &SegmentSet,
    output: &mut Counted<W>,
    old: &Hashed<'_>,
) -> Result<(), WriteFault>
    requires { IsSoundWriter output.old }
    ensures ok { OnOk result (Appends (W.contents output.old.inner) (W.contents output.new.inner) (file_of set.now.schema set.now.view)) }
    ensures sound { OnOk result (IsSoundWriter output.new) }
    ensures front { OnErr result (AppendsFront (W.contents output.old.inner) (W.contents output.new.inner)
        (file_of set.now.schema set.now.view)) }
    ensures failed { OnErr result (output.new.failures ≡ 1) }
{
    let mut hasher = Hashing::new(old);
    write_counted(set, output, &mut hasher)?;
    write_digest(output, hasher)
}

/// Writes the file of a set, as `write_over` does, where there are no old bytes.
pub fn write<W: Write>(set: &SegmentSet, output: &mut Counted<W>) -> Result<(), WriteFault>
    requires { IsSoundWriter output.old }
    ensures ok { OnOk result (Appends (W.contents output.old.inner) (W.contents output.new.inner) (file_of set.now.schema set.now.view)) }
    ensures sound { OnOk result (IsSoundWriter output.new) }
    ensures front { OnErr result (AppendsFront (W.contents output.old.inner) (W.contents output.new.inner)
        (file_of set.now.schema set.now.view)) }
    ensures failed { OnErr result (output.new.failures ≡ 1) }
{
    write_over(set, output, &Hashed::bare(&[]))
}

//! Reads exchange files.
ghost use Rattle.std.specs.Prelude.{◌≡◌, ◌≢◌, ◌⊎◌, ◌<◌, ℕ, List, [], ◌∷◌, ◌++◌, IfOk, IfErr, IfSome, IfNone, OnOk, length, nat_eq};
ghost use Rattle.std.specs.List.{starts_with};
ghost use Rattle.std.specs.FinMap as map;
ghost use Rattle.wvalues.specs.Names.{IsName};
ghost use Rattle.wsegment.specs.Declaration.{Declaration, declaration_text};
ghost use Rattle.wexchange.specs.declared.fault.FileFault.TheVariants.{OtherDigest, OtherSchema, Trailing};
ghost use Rattle.wset.specs.Views.{View};
ghost use Rattle.wrecords.specs.Forms.{IsForm, IsNumber, line_of};
ghost use Rattle.wexchange.specs.Files.{head, table_text, end_text, counted, digest_of, digest_text, text_of, IsView, HasRecords};
ghost use Rattle.wexchange.specs.Judging.{GoesOn, AtDigest, AtTable, Behind, IsFault, IsFileOf, MayStand};
ghost use Rattle.wexchange.specs.Steps.{ReadsNext, Spoils, file_fault};

use crate::fault::FileFault;
use crate::hashed::Hashed;
use crate::hashing::behind;
use crate::seal::is_sealed;
use crate::version::{Version, head_of};
use std::alloc::Global;
use wrecords::{Body, DIGITS, Form, cut_body, cut_line, read_form};
use wsegment::{Schema, SegmentFault};
use wset::SegmentSet;
use wvalues::Name;

/// What was read behind the records before it.
enum Next<'a> {
    /// A record, and what stands behind it.
    Record(&'a [u8]),
    /// The count of the records, and what stands behind its line.
    End(u32, &'a [u8]),
}

// What stands behind the first line of a version, if that stands first.
fn behind_head(version: Version, bytes: &[u8]) -> Option<&[u8]>
    ensures found { IfSome result (λ rest. bytes.now ≡ head version ++ rest.now) }
    ensures none { IfNone result ((rest : List ℕ) → bytes.now ≢ head version ++ rest) }
{
    behind(head_of(version), bytes)
}

// Whether the bytes are a front of the first line of a version.
fn is_cut_head(version: Version, bytes: &[u8]) -> bool
    ensures { result ≡ starts_with nat_eq (head version) bytes.now }
{
    head_of(version).starts_with(bytes)
}

// The version that the first line has, and what stands behind it.
fn read_head(bytes: &[u8]) -> Result<(Version, &[u8]), FileFault>
    ensures found { IfOk result (λ x. bytes.now ≡ head x.0 ++ x.1.now) }
    ensures fault { IfErr result (λ fault. (d : Declaration) → IsFault d bytes.now fault) }
{
    if let Some(rest) = behind_head(Version::Two, bytes) {
        return Ok((Version::Two, rest));
    }
    if let Some(rest) = behind_head(Version::One, bytes) {
        return Ok((Version::One, rest));
    }
    if is_cut_head(Version::Two, bytes) {
        return Err(FileFault::Truncated);
    }
    if is_cut_head(Version::One, bytes) {
        return Err(FileFault::Truncated);
    }
    Err(FileFault::OtherFormat)
}

// The length of the declaration, and what stands behind its line.
fn read_table_line(rest: &[u8]) -> Result<(u32, &[u8]), FileFault>
    ensures found { IfOk result (λ x. IsNumber x.0 × (rest.now ≡ line_of (Form.Table x.0) ++ (10 ∷ x.1.now))) }
    ensures fault { IfErr result (λ fault. (r : Version) (d : Declaration) (bytes : List ℕ)
        → GoesOn d (AtTable r) bytes rest.now → IsFault d bytes fault) }
{
    let Some((line, after)) = cut_line(rest) else {
        return Err(FileFault::Truncated);
    };
    match read_form(line) {
        Some(Form::Table(len)) => Ok((len, after)),
        _ => Err(FileFault::OtherFormat),
    }
}

// What stands behind a declaration, if it is that of the table.
fn behind_same<'a>(schema: &Schema, table: &[u8], more: &'a [u8]) -> Result<&'a [u8], FileFault>
    ensures found { IfOk result (λ rest. (table.now ≡ declaration_text schema.now) × (rest.now ≡ more.now)) }
    ensures fault { IfErr result (λ fault. (fault ≡ OtherSchema) × (table.now ≢ declaration_text schema.now)) }
{
    if table == schema.text() {
        return Ok(more);
    }
    Err(FileFault::OtherSchema)
}

// What stands behind the declaration of the table, whose line was read.
fn table_behind<'a>(schema: &Schema, len: u32, after: &'a [u8]) -> Result<&'a [u8], FileFault>
    requires { IsNumber len }
    ensures found { IfOk result (λ more. line_of (Form.Table len) ++ (10 ∷ after.now) ≡ table_text schema.now ++ more.now) }
    ensures fault { IfErr result (λ fault. (r : Version) (bytes : List ℕ)
        → GoesOn schema.now (AtTable r) bytes (line_of (Form.Table len) ++ (10 ∷ after.now)) → IsFault schema.now bytes fault) }
{
    match cut_body(after, len) {
        Body::Whole(table, more) => behind_same(schema, table, more),
        Body::Short => Err(FileFault::Truncated),
        Body::Unfed => Err(FileFault::OtherFormat),
    }
}

// What stands behind the declaration of the table.
fn read_table<'a>(schema: &Schema, rest: &'a [u8]) -> Result<&'a [u8], FileFault>
    ensures found { IfOk result (λ more. rest.now ≡ table_text schema.now ++ more.now) }
    ensures fault { IfErr result (λ fault. (r : Version) (bytes : List ℕ) → GoesOn schema.now (AtTable r) bytes rest.now
        → IsFault schema.now bytes fault) }
{
    let (len, after) = read_table_line(rest)?;
    table_behind(schema, len, after)
}

// The fault of a file with a content that is refused.
fn refused(fault: SegmentFault) -> FileFault
    ensures { result ≡ file_fault fault }
{
    match fault {
        SegmentFault::NoMemory => FileFault::NoMemory,
        _ => FileFault::Segment(fault),
    }
}

// Adds a content behind its line.
fn add_content<'a>(
    set: &mut SegmentSet,
    known: &SegmentSet,
    name: Name,
    len: u32,
    after: &'a [u8],
) -> Result<Next<'a>, FileFault>
    requires same { set.old.schema ≡ known.now.schema }
    requires name { IsName name }
    requires number { IsNumber len }
    ensures found { IfOk result (λ next. (r : Version)
        → ReadsNext r set.old.schema set.old.view (line_of (Form.Content name len) ++ (10 ∷ after.now)) set.new.view next) }
    ensures schema { OnOk result (set.new.schema ≡ set.old.schema) }
    ensures fault { IfErr result (λ fault. (r : Version)
        → Spoils r set.old.schema set.old.view (line_of (Form.Content name len) ++ (10 ∷ after.now)) fault) }
{
    if !set.ends_before(&name) {
        return Err(FileFault::NotRising);
    }
    match cut_body(after, len) {
        Body::Whole(content, more) => match set.take_beside(name, content, known) {
            Ok(_) => Ok(Next::Record(more)),
            Err(fault) => Err(refused(fault)),
        },
        Body::Short => Err(FileFault::Truncated),
        Body::Unfed => Err(FileFault::OtherFormat),
    }
}

// Adds a name that is disputed.
fn add_dispute<'a>(set: &mut SegmentSet, name: Name, after: &'a [u8]) -> Result<Next<'a>, FileFault>
    requires { IsName name }
    ensures found { IfOk result (λ next. (r : Version)
        → ReadsNext r set.old.schema set.old.view (line_of (Form.Dispute name) ++ (10 ∷ after.now)) set.new.view next) }
    ensures schema { OnOk result (set.new.schema ≡ set.old.schema) }
    ensures fault { IfErr result (λ fault. (r : Version)
        → Spoils r set.old.schema set.old.view (line_of (Form.Dispute name) ++ (10 ∷ after.now)) fault) }
{
    if !set.ends_before(&name) {
        return Err(FileFault::NotRising);
    }
    match set.dispute(name) {
        Ok(()) => Ok(Next::Record(after)),
        Err(_) => Err(FileFault::NoMemory),
    }
}

// Adds a name that is retired.
fn add_retirement<'a>(
    set: &mut SegmentSet,
    name: Name,
    after: &'a [u8],
) -> Result<Next<'a>, FileFault>
    requires { IsName name }
    ensures found { IfOk result (λ next. (r : Version)
        → ReadsNext r set.old.schema set.old.view (line_of (Form.Retirement name) ++ (10 ∷ after.now)) set.new.view next) }
    ensures schema { OnOk result (set.new.schema ≡ set.old.schema) }
    ensures fault { IfErr result (λ fault. (r : Version)
        → Spoils r set.old.schema set.old.view (line_of (Form.Retirement name) ++ (10 ∷ after.now)) fault) }
{
    if !set.ends_before(&name) {
        return Err(FileFault::NotRising);
    }
    match set.retire(name) {
        Ok(_) => Ok(Next::Record(after)),
        Err(_) => Err(FileFault::NoMemory),
    }
}

// Adds a floor, in version 2.
fn add_floor<'a>(set: &mut SegmentSet, name: Name, after: &'a [u8]) -> Result<Next<'a>, FileFault>
    requires { IsName name }
    ensures found { IfOk result (λ next. ReadsNext Version.Two set.old.schema set.old.view
        (line_of (Form.Floor name) ++ (10 ∷ after.now)) set.new.view next) }
    ensures schema { OnOk result (set.new.schema ≡ set.old.schema) }
    ensures fault { IfErr result (λ fault. Spoils Version.Two set.old.schema set.old.view
        (line_of (Form.Floor name) ++ (10 ∷ after.now)) fault) }
{
    if !set.ends_before_origin(&name) {
        return Err(FileFault::NotRising);
    }
    match set.retire_to(name) {
        Ok(_) => Ok(Next::Record(after)),
        Err(_) => Err(FileFault::NoMemory),
    }
}

// Adds the record of a line, or reads the count.
fn read_form_of<'a>(
    version: Version,
    set: &mut SegmentSet,
    known: &SegmentSet,
    form: Form,
    after: &'a [u8],
) -> Result<Next<'a>, FileFault>
    requires same { set.old.schema ≡ known.now.schema }
    requires form { IsForm form }
    ensures found { IfOk result (λ next. ReadsNext version set.old.schema set.old.view (line_of form ++ (10 ∷ after.now))
        set.new.view next) }
    ensures schema { OnOk result (set.new.schema ≡ set.old.schema) }
    ensures fault { IfErr result (λ fault. Spoils version set.old.schema set.old.view (line_of form ++ (10 ∷ after.now)) fault) }
{
    match form {
        Form::Table(_) => Err(FileFault::OtherFormat),
        Form::End(count) => Ok(Next::End(count, after)),
        Form::Content(name, len) => add_content(set, known, name, len, after),
        Form::Dispute(name) => add_dispute(set, name, after),
        Form::Retirement(name) => add_retirement(set, name, after),
        Form::Floor(name) => match version {
            Version::One => Err(FileFault::OtherFormat),
            Version::Two => add_floor(set, name, after),
        },
        Form::Digest(_) => Err(FileFault::OtherFormat),
    }
}

// Reads the next record, or the line of the end.
fn read_next<'a>(
    version: Version,
    set: &mut SegmentSet,
    known: &SegmentSet,
    rest: &'a [u8],
) -> Result<Next<'a>, FileFault>
    requires { set.old.schema ≡ known.now.schema }
    ensures found { IfOk result (λ next. ReadsNext version set.old.schema set.old.view rest.now set.new.view next) }
    ensures schema { OnOk result (set.new.schema ≡ set.old.schema) }
    ensures fault { IfErr result (λ fault. Spoils version set.old.schema set.old.view rest.now fault) }
{
    let Some((line, after)) = cut_line(rest) else {
        return Err(FileFault::Truncated);
    };
    let Some(form) = read_form(line) else {
        return Err(FileFault::OtherFormat);
    };
    read_form_of(version, set, known, form, after)
}

// Judges what stands behind the line of the end: nothing.
fn judge_rest(after: &[u8]) -> Result<(), FileFault>
    ensures end { OnOk result (after.now ≡ []) }
    ensures fault { IfErr result (λ fault. (fault ≡ Trailing) × (0 < length after.now)) }
{
    if after.is_empty() {
        return Ok(());
    }
    Err(FileFault::Trailing)
}

// Judges what stands behind the line of the digest of version 2: nothing, where the digest is that of what stands
// before the line.
fn judge_digits(
    bytes: &Hashed<'_>,
    after: &[u8],
    digits: &[u8; DIGITS],
    rest: &[u8],
) -> Result<(), FileFault>
    ensures end { OnOk result ((front : List ℕ) → bytes.now ≡ front ++ after.now → (digits.now ≡ digest_of front) × (rest.now ≡ [])) }
    ensures fault { IfErr result (λ fault. (front : List ℕ) → bytes.now ≡ front ++ after.now
        → ((fault ≡ OtherDigest) × (digits.now ≢ digest_of front))
        ⊎ ((fault ≡ Trailing) × (digits.now ≡ digest_of front) × (0 < length rest.now))) }
{
    if !is_sealed(bytes, after, digits) {
        return Err(FileFault::OtherDigest);
    }
    judge_rest(rest)
}

// The digits of a line of the digest.
fn digits_in(form: Form) -> Option<[u8; DIGITS]>
    ensures found { IfSome result (λ digits. form ≡ Form.Digest digits) }
    ensures none { IfNone result ((v : View) → MayStand (AtDigest v) form → ⊥) }
{
    match form {
        Form::Digest(digits) => Some(digits),
        Form::Table(_) => None,
        Form::Content(_, _) => None,
        Form::Dispute(_) => None,
        Form::Retirement(_) => None,
        Form::Floor(_) => None,
        Form::End(_) => None,
    }
}

// Judges what stands behind the line of the end in version 2: the digest of all before it, and then nothing.
fn judge_digest(bytes: &Hashed<'_>, after: &[u8]) -> Result<(), FileFault>
    ensures end { OnOk result ((front : List ℕ) → bytes.now ≡ front ++ after.now → after.now ≡ digest_text front) }
    ensures fault { IfErr result (λ fault. (d : Declaration) (v : View) → IsView d v
        → bytes.now ≡ counted Version.Two d (map.entries v) ++ after.now → IsFault d bytes.now fault) }
{
    let Some((line, rest)) = cut_line(after) else {
        return Err(FileFault::Truncated);
    };
    let Some(form) = read_form(line) else {
        return Err(FileFault::OtherFormat);
    };
    let Some(digits) = digits_in(form) else {
        return Err(FileFault::OtherFormat);
    };
    judge_digits(bytes, after, &digits, rest)
}

// Judges what stands behind the line of the end: in version 2 the digest, and then nothing.
fn judge_end(version: Version, bytes: &Hashed<'_>, after: &[u8]) -> Result<(), FileFault>
    ensures end { OnOk result ((d : Declaration) (v : View) → bytes.now ≡ counted version d (map.entries v) ++ after.now
        → bytes.now ≡ text_of version d v) }
    ensures fault { IfErr result (λ fault. (d : Declaration) (v : View) → IsView d v → HasRecords version v
        → bytes.now ≡ counted version d (map.entries v) ++ after.now → IsFault d bytes.now fault) }
{
    match version {
        Version::One => judge_rest(after),
        Version::Two => judge_digest(bytes, after),
    }
}

// Judges what stands behind the records: their count, in version 2 the digest, and then nothing.
fn ended(
    version: Version,
    bytes: &Hashed<'_>,
    set: SegmentSet,
    count: u32,
    after: &[u8],
) -> Result<SegmentSet, FileFault>
    requires { IsNumber count }
    ensures same { IfOk result (λ new. new ≡ set) }
    ensures file { OnOk result (GoesOn set.schema (Behind version set.view) bytes.now (end_text count ++ after.now)
        → IsFileOf set.schema set.view bytes.now) }
    ensures fault { IfErr result (λ fault. GoesOn set.schema (Behind version set.view) bytes.now
        (end_text count ++ after.now) → IsFault set.schema bytes.now fault) }
{
    if set.name_count() != count as usize {
        return Err(FileFault::OtherCount);
    }
    match judge_end(version, bytes, after) {
        Ok(()) => Ok(set),
        Err(fault) => Err(fault),
    }
}

// Reads the records and the end into a set.
fn read_records(
    version: Version,
    bytes: &Hashed<'_>,
    set: SegmentSet,
    known: &SegmentSet,
    rest: &[u8],
) -> Result<SegmentSet, FileFault>
    requires { set.schema ≡ known.now.schema }
    ensures schema { IfOk result (λ new. new.schema ≡ set.schema) }
    ensures file { IfOk result (λ new. GoesOn set.schema (Behind version set.view) bytes.now rest.now
        → IsFileOf set.schema new.view bytes.now) }
    ensures fault { IfErr result (λ fault. GoesOn set.schema (Behind version set.view) bytes.now rest.now
        → IsFault set.schema bytes.now fault) }
{
    let mut set = set;
    let mut rest = rest;
    'records: loop {
        match read_next(version, &mut set, known, rest) {
            Ok(Next::Record(more)) => rest = more,
            Ok(Next::End(count, more)) => return ended(version, bytes, set, count, more),
            Err(fault) => return Err(fault),
        }
    }
}

// What stands behind the declaration.
fn read_front<'a>(schema: &Schema, bytes: &'a [u8]) -> Result<(Version, &'a [u8]), FileFault>
    ensures found { IfOk result (λ x. bytes.now ≡ head x.0 ++ (table_text schema.now ++ x.1.now)) }
    ensures fault { IfErr result (λ fault. IsFault schema.now bytes.now fault) }
{
    let (version, rest) = read_head(bytes)?;
    let records = read_table(schema, rest)?;
    Ok((version, records))
}

// Reads what stands behind the declaration into a set, beside one that is known.
fn read_behind(
    alloc: Global,
    known: &SegmentSet,
    version: Version,
    bytes: &Hashed<'_>,
    records: &[u8],
) -> Result<SegmentSet, FileFault>
    requires { bytes.now ≡ head version ++ (table_text known.now.schema ++ records.now) }
    ensures schema { IfOk result (λ set. set.schema ≡ known.now.schema) }
    ensures view { IfOk result (λ set. IsFileOf known.now.schema set.view bytes.now) }
    ensures fault { IfErr result (λ fault. IsFault known.now.schema bytes.now fault) }
{
    let Ok(set) = known.like(alloc) else {
        return Err(FileFault::NoMemory);
    };
    read_records(version, bytes, set, known, records)
}

/// The set whose file the bytes are, or where it has no floor its text in version 1, under the declaration of a set that
/// is known, or their first fault from left to right. A content that the known set has live under its name is compared
/// with it and shared; others are judged, and their cells are made unless the known set is lazy. The digest of a file of
/// version 2 is taken where all before it is right, from the last state of the hasher on.
pub fn read_beside(
    alloc: Global,
    known: &SegmentSet,
    bytes: &Hashed<'_>,
) -> Result<SegmentSet, FileFault>
    ensures view { IfOk result (λ set. IsFileOf known.now.schema set.view bytes.now) }
    ensures schema { IfOk result (λ set. set.schema ≡ known.now.schema) }
    ensures fault { IfErr result (λ fault. IsFault known.now.schema bytes.now fault) }
{
    let (version, records) = read_front(known.schema(), bytes.bytes())?;
    read_behind(alloc, known, version, bytes, records)
}

/// The set whose file the bytes are, or where it has no floor its text in version 1, under this declaration, or their
/// first fault from left to right. The set is lazy: contents are judged, and no cells are made. The digest of a file of
/// version 2 is taken where all before it is right.
pub fn read(alloc: Global, schema: &Schema, bytes: &[u8]) -> Result<SegmentSet, FileFault>
    ensures view { IfOk result (λ set. IsFileOf schema.now set.view bytes.now) }
    ensures schema { IfOk result (λ set. set.schema ≡ schema.now) }
    ensures fault { IfErr result (λ fault. IsFault schema.now bytes.now fault) }
{
    let (version, records) = read_front(schema, bytes)?;
    let Ok(copied) = schema.copy() else {
        return Err(FileFault::NoMemory);
    };
    read_behind(
        alloc,
        &SegmentSet::lazy(alloc, copied),
        version,
        &Hashed::bare(bytes),
        records,
    )
}

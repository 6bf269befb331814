// Records of a file written anew: each goes through the sixteen bytes of the file that it fills.
ghost use Rattle.std.specs.Prelude.{◌≡◌, ◌<◌, length};
ghost use Rattle.plan.specs.Records.{record_count};
ghost use Rattle.plan.proofs.Laws.Heads.{Whole};
ghost use Rattle.edit.specs.Laying.{laid, relinked, with_link, rewritten};
ghost use Rattle.edit.specs.Inner.{replaced};

// The sixteen bytes of a record, as an array.
pub(crate) fn copy_record(b: &[u8]) -> [u8; 16]
    requires { length b.now ≡ 16 }
    ensures { result ≡ b.now }
{
    let mut out = [0; 16];
    out.copy_from_slice(b);
    out
}

// The bytes of record k with another link.
pub(crate) fn relink(b: [u8; 16], k: usize, l: u16) -> [u8; 16]
    ensures { result ≡ relinked k l b }
{
    let bytes = l.to_le_bytes();
    let mut out = b;
    if k == 0 {
        out[2] = bytes[0];
        out[3] = bytes[1];
        return out;
    }
    out[0] = bytes[0];
    out[1] = bytes[1];
    out
}

// Replaces record k: its sixteen bytes are lent on to the record writer. (That the length is a file's is required, here and below, of
// bytes that the caller lends and keeps: a type for them would have to be made of each part anew.)
fn write_record(file: &mut [u8], k: usize, bytes: [u8; 16])
    requires { Whole (length file.old) × (k < record_count file.old) }
    ensures { file.new ≡ laid (replaced file.old k bytes) file.old }
{
    let at = 16 * k;
    plan::put_record(&mut file[at..at + 16], bytes);
}

// Sets the link of record q.
pub(crate) fn set_link(file: &mut [u8], q: usize, l: u16)
    requires { Whole (length file.old) × (q < record_count file.old) }
    ensures { file.new ≡ laid (with_link file.old q l) file.old }
{
    let b = copy_record(plan::record_part(file, q));
    let bytes = relink(b, q, l);
    write_record(file, q, bytes);
}

// The two writes of an edit: the link of record q is set, and record k is replaced.
pub(crate) fn rewrite(file: &mut [u8], q: usize, l: u16, k: usize, bytes: [u8; 16])
    requires { Whole (length file.old) × (q < record_count file.old) × (k < record_count file.old) }
    ensures { file.new ≡ laid (rewritten file.old q l k bytes) file.old }
{
    set_link(file, q, l);
    write_record(file, k, bytes);
}

// The file `ask`.
ghost use Rattle.std.specs.Prelude.{◌≡◌};
ghost use Rattle.question.specs.Ask.{question_of};
ghost use Rattle.question.specs.Inner.{asked_by};

// What the file asks: a slot, counted from 1 over the run, and an offering number.
#[derive(Clone, Copy, Debug, PartialEq, Eq)]
pub(crate) struct Asked {
    pub slot: u64,
    pub number: u64,
}

// None where the file is malformed.
pub(crate) fn read_ask(bytes: &[u8]) -> Option<Asked>
    ensures { asked_by result ≡ question_of bytes.now }
{
    let [line @ .., b'\n'] = bytes else {
        return None;
    };
    let n = script::read_numbers(line, 9, 2)?;
    Some(Asked {
        slot: n.first,
        number: n.second,
    })
}

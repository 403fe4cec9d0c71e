// What a call answers to C.
ghost use Rattle.std.specs.Prelude.{◌≡◌, ◌≢◌};
ghost use Rattle.pcm_c.specs.Answers.{status_number, status_of};

use pcm_library::Answer;

/// What a call answers.
#[derive(Clone, Copy, PartialEq, Eq)]
pub(crate) enum Status {
    /// It is done.
    Done,
    /// The module was finished before: no more rows come.
    Ended,
    /// No outcome waits.
    Empty,
    /// The tick is past, or too late.
    Late,
    /// There is no such line.
    NoLine,
    /// There is no such bank.
    NoBank,
    /// No such row came.
    NoRow,
    /// The bytes aren't as many as a line has.
    Size,
    /// A mask gives no byte.
    Mask,
    /// There are too many rows.
    TooMany,
    /// An option is out of range.
    Options,
    /// There is no memory.
    NoMemory,
    /// The handle holds no module.
    Closed,
    /// The handle holds a module already.
    Open,
}

impl Status {
    /// Its number in C.
    pub(crate) fn number(self) -> u32
        ensures is { result ≡ status_number self }
        ensures done { result ≡ 0 → self ≡ Status.Done }
        ensures other { result ≢ 0 → self ≢ Status.Done }
    {
        match self {
            Status::Done => 0,
            Status::Ended => 1,
            Status::Empty => 2,
            Status::Late => 3,
            Status::NoLine => 4,
            Status::NoBank => 5,
            Status::NoRow => 6,
            Status::Size => 7,
            Status::Mask => 8,
            Status::TooMany => 9,
            Status::Options => 10,
            Status::NoMemory => 11,
            Status::Closed => 12,
            Status::Open => 13,
        }
    }
}

/// The status that says what a session answered.
pub(crate) fn told(answer: Answer) -> Status
    ensures is { result ≡ status_of answer }
    ensures done { result ≡ Status.Done → answer ≡ Answer.Done }
    ensures other { result ≢ Status.Done → answer ≢ Answer.Done }
{
    match answer {
        Answer::Done => Status::Done,
        Answer::Ended => Status::Ended,
        Answer::Late => Status::Late,
        Answer::NoLine => Status::NoLine,
        Answer::NoRow => Status::NoRow,
        Answer::TooMany => Status::TooMany,
        Answer::NoBytes => Status::Mask,
        Answer::NoMemory => Status::NoMemory,
    }
}

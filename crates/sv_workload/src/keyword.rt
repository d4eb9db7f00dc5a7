//! Keywords, and which words spell them.
ghost use Rattle.std.specs.Prelude.{◌≡◌, ◌∷◌, [], bytes_eq};
ghost use Rattle.sv_workload.specs.Keywords.{spelling, keyword_among, of_length, step_keywords};
ghost use Rattle.sv_workload.specs.Keywords.{other_keywords};

/// The words that begin a line about the target, its tasks or what the host asks.
#[derive(Clone, Copy, Debug, PartialEq, Eq)]
pub enum SetupWord {
    Ring,
    Clock,
    Cpu,
    Base,
    Shift,
    Time,
    Desc,
    Task,
    Module,
    Command,
}

/// The words that say what a step does.
#[derive(Clone, Copy, Debug, PartialEq, Eq)]
pub enum ActWord {
    Start,
    Stop,
    Nop,
    Isr,
    IsrExit,
    Run,
    Halt,
    Ready,
    Unready,
    Create,
    Terminate,
    Mark,
    MarkEnd,
    Idle,
    Sched,
    Timer,
    TimerExit,
    Name,
    Print,
    Call,
    Return,
}

/// The words of the schedule: who takes the next turn.
#[derive(Clone, Copy, Debug, PartialEq, Eq)]
pub enum TurnWord {
    Step,
    Read,
    Send,
}

/// What kind of line a word begins. `Unknown` stands for every other word.
#[derive(Clone, Copy, Debug, PartialEq, Eq)]
pub enum Keyword {
    Setup(SetupWord),
    Writer,
    Act(ActWord),
    Schedule,
    Turn(TurnWord),
    Unknown,
}

/// The keywords of every other line that have so many letters.
fn other_keywords(len: usize) -> &'static [Keyword]
    ensures { result.now ≡ of_length len other_keywords }
{
    match len {
        3 => &[Keyword::Setup(SetupWord::Cpu)],
        4 => &[
            Keyword::Setup(SetupWord::Ring),
            Keyword::Setup(SetupWord::Base),
            Keyword::Setup(SetupWord::Time),
            Keyword::Setup(SetupWord::Desc),
            Keyword::Setup(SetupWord::Task),
            Keyword::Turn(TurnWord::Step),
            Keyword::Turn(TurnWord::Read),
            Keyword::Turn(TurnWord::Send),
        ],
        5 => &[
            Keyword::Setup(SetupWord::Clock),
            Keyword::Setup(SetupWord::Shift),
        ],
        6 => &[Keyword::Setup(SetupWord::Module), Keyword::Writer],
        7 => &[Keyword::Setup(SetupWord::Command)],
        8 => &[Keyword::Schedule],
        _ => &[],
    }
}

/// How a keyword is spelled.
#[inline(always)]
fn spelling(keyword: Keyword) -> &'static [u8]
    ensures { result.now ≡ spelling keyword }
{
    match keyword {
        Keyword::Setup(SetupWord::Ring) => b"ring",
        Keyword::Setup(SetupWord::Clock) => b"clock",
        Keyword::Setup(SetupWord::Cpu) => b"cpu",
        Keyword::Setup(SetupWord::Base) => b"base",
        Keyword::Setup(SetupWord::Shift) => b"shift",
        Keyword::Setup(SetupWord::Time) => b"time",
        Keyword::Setup(SetupWord::Desc) => b"desc",
        Keyword::Setup(SetupWord::Task) => b"task",
        Keyword::Setup(SetupWord::Module) => b"module",
        Keyword::Setup(SetupWord::Command) => b"command",
        Keyword::Writer => b"writer",
        Keyword::Act(ActWord::Start) => b"start",
        Keyword::Act(ActWord::Stop) => b"stop",
        Keyword::Act(ActWord::Nop) => b"nop",
        Keyword::Act(ActWord::Isr) => b"isr",
        Keyword::Act(ActWord::IsrExit) => b"isr-exit",
        Keyword::Act(ActWord::Run) => b"run",
        Keyword::Act(ActWord::Halt) => b"halt",
        Keyword::Act(ActWord::Ready) => b"ready",
        Keyword::Act(ActWord::Unready) => b"unready",
        Keyword::Act(ActWord::Create) => b"create",
        Keyword::Act(ActWord::Terminate) => b"terminate",
        Keyword::Act(ActWord::Mark) => b"mark",
        Keyword::Act(ActWord::MarkEnd) => b"mark-end",
        Keyword::Act(ActWord::Idle) => b"idle",
        Keyword::Act(ActWord::Sched) => b"sched",
        Keyword::Act(ActWord::Timer) => b"timer",
        Keyword::Act(ActWord::TimerExit) => b"timer-exit",
        Keyword::Act(ActWord::Name) => b"name",
        Keyword::Act(ActWord::Print) => b"print",
        Keyword::Act(ActWord::Call) => b"call",
        Keyword::Act(ActWord::Return) => b"return",
        Keyword::Schedule => b"schedule",
        Keyword::Turn(TurnWord::Step) => b"step",
        Keyword::Turn(TurnWord::Read) => b"read",
        Keyword::Turn(TurnWord::Send) => b"send",
        Keyword::Unknown => b"",
    }
}

/// The keyword among these that a word spells.
fn keyword_among(keywords: &[Keyword], word: &[u8]) -> Keyword
    ensures { result ≡ keyword_among keywords.now word.now }
{
    for keyword in keywords {
        if is_spelled(*keyword, word) {
            return *keyword;
        }
    }
    Keyword::Unknown
}

/// Whether a word spells a keyword.
#[inline(always)]
fn is_spelled(keyword: Keyword, word: &[u8]) -> bool
    ensures { result ≡ bytes_eq (spelling keyword) word.now }
{
    spelling(keyword) == word
}

/// The keyword of a step that a word of three letters spells.
#[inline(always)]
fn three_letters(word: &[u8]) -> Keyword
    ensures { result ≡ keyword_among (of_length 3 step_keywords) word.now }
{
    if is_spelled(Keyword::Act(ActWord::Nop), word) {
        Keyword::Act(ActWord::Nop)
    } else if is_spelled(Keyword::Act(ActWord::Isr), word) {
        Keyword::Act(ActWord::Isr)
    } else if is_spelled(Keyword::Act(ActWord::Run), word) {
        Keyword::Act(ActWord::Run)
    } else {
        Keyword::Unknown
    }
}

/// The keyword of a step that a word of four letters spells.
#[inline(always)]
fn four_letters(word: &[u8]) -> Keyword
    ensures { result ≡ keyword_among (of_length 4 step_keywords) word.now }
{
    if is_spelled(Keyword::Act(ActWord::Stop), word) {
        Keyword::Act(ActWord::Stop)
    } else if is_spelled(Keyword::Act(ActWord::Halt), word) {
        Keyword::Act(ActWord::Halt)
    } else if is_spelled(Keyword::Act(ActWord::Mark), word) {
        Keyword::Act(ActWord::Mark)
    } else if is_spelled(Keyword::Act(ActWord::Idle), word) {
        Keyword::Act(ActWord::Idle)
    } else if is_spelled(Keyword::Act(ActWord::Name), word) {
        Keyword::Act(ActWord::Name)
    } else if is_spelled(Keyword::Act(ActWord::Call), word) {
        Keyword::Act(ActWord::Call)
    } else {
        Keyword::Unknown
    }
}

/// The keyword of a step that a word of five letters spells.
#[inline(always)]
fn five_letters(word: &[u8]) -> Keyword
    ensures { result ≡ keyword_among (of_length 5 step_keywords) word.now }
{
    if is_spelled(Keyword::Act(ActWord::Start), word) {
        Keyword::Act(ActWord::Start)
    } else if is_spelled(Keyword::Act(ActWord::Ready), word) {
        Keyword::Act(ActWord::Ready)
    } else if is_spelled(Keyword::Act(ActWord::Sched), word) {
        Keyword::Act(ActWord::Sched)
    } else if is_spelled(Keyword::Act(ActWord::Timer), word) {
        Keyword::Act(ActWord::Timer)
    } else if is_spelled(Keyword::Act(ActWord::Print), word) {
        Keyword::Act(ActWord::Print)
    } else {
        Keyword::Unknown
    }
}

/// The one of two keywords of a step that a word spells.
#[inline(always)]
fn one_of(first: ActWord, second: ActWord, word: &[u8]) -> Keyword
    ensures { result ≡ keyword_among (Keyword.Act first ∷ Keyword.Act second ∷ []) word.now }
{
    if is_spelled(Keyword::Act(first), word) {
        Keyword::Act(first)
    } else {
        this(second, word)
    }
}

/// The keyword of a step, if a word spells it.
#[inline(always)]
fn this(act: ActWord, word: &[u8]) -> Keyword
    ensures { result ≡ keyword_among (Keyword.Act act ∷ []) word.now }
{
    if is_spelled(Keyword::Act(act), word) {
        Keyword::Act(act)
    } else {
        Keyword::Unknown
    }
}

/// The keyword of a step that a word spells, among those that have so many letters.
#[inline(always)]
fn keyword_of(letters: usize, word: &[u8]) -> Keyword
    ensures { result ≡ keyword_among (of_length letters step_keywords) word.now }
{
    match letters {
        3 => three_letters(word),
        4 => four_letters(word),
        5 => five_letters(word),
        6 => one_of(ActWord::Create, ActWord::Return, word),
        7 => this(ActWord::Unready, word),
        8 => one_of(ActWord::IsrExit, ActWord::MarkEnd, word),
        9 => this(ActWord::Terminate, word),
        10 => this(ActWord::TimerExit, word),
        _ => Keyword::Unknown,
    }
}

/// The keyword that a step line has, by its second word.
#[inline(always)]
pub fn step_keyword(word: &[u8]) -> Keyword
    ensures { result ≡ keyword_among step_keywords word.now }
{
    keyword_of(word.len(), word)
}

/// The keyword that any other line has, by its first word.
pub fn other_keyword(word: &[u8]) -> Keyword
    ensures { result ≡ keyword_among other_keywords word.now }
{
    keyword_among(other_keywords(word.len()), word)
}

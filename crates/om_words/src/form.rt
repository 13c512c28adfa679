// The forms of sentences.
ghost use Rattle.std.specs.Prelude.{◌≡◌};
ghost use Rattle.om_words.specs.Sentences.{text_of, slots_of, goes_on as may_go_on, forms};

/// A word that stands in sentences as it is.
#[derive(Clone, Copy, PartialEq, Eq, Debug)]
pub enum Keyword {
    Link,
    Exec,
    Run,
    Sim,
    List,
    Gen,
    Asm,
    Count,
    Place,
    /// The option `-O0`, for the plain level.
    Plain,
    /// The option `-n`, before a number of steps.
    Steps,
    /// The option `-o`, before the name of what is saved.
    Out,
    /// The option `-c`, before the name of a file of counts.
    Counts,
}

/// What may stand at a place of a sentence.
#[derive(Clone, Copy, PartialEq, Eq, Debug)]
pub enum Slot {
    /// This word.
    Says(Keyword),
    /// The name of a file: not empty, and not begun by `-`.
    Name,
    /// A number: 1 to 20 decimal digits, with a value below 2^64.
    Number,
}

/// A form of sentences: a command with the options that are given, in their order.
#[derive(Clone, Copy, PartialEq, Eq, Debug)]
pub enum Form {
    LinkOut,
    LinkPlainOut,
    LinkOutPlain,
    Exec,
    ExecPlain,
    ExecSteps,
    ExecPlainSteps,
    ExecStepsPlain,
    Run,
    RunSteps,
    Sim,
    SimSteps,
    List,
    Gen,
    Asm,
    CountOut,
    CountStepsOut,
    CountOutSteps,
    PlaceCountsOut,
    PlaceOutCounts,
}

/// All forms.
pub(crate) const FORMS: [Form; 20] = [
    Form::LinkOut,
    Form::LinkPlainOut,
    Form::LinkOutPlain,
    Form::Exec,
    Form::ExecPlain,
    Form::ExecSteps,
    Form::ExecPlainSteps,
    Form::ExecStepsPlain,
    Form::Run,
    Form::RunSteps,
    Form::Sim,
    Form::SimSteps,
    Form::List,
    Form::Gen,
    Form::Asm,
    Form::CountOut,
    Form::CountStepsOut,
    Form::CountOutSteps,
    Form::PlaceCountsOut,
    Form::PlaceOutCounts,
];

/// How a keyword is spelled.
pub(crate) fn text(keyword: Keyword) -> &'static str
    ensures { result.now ≡ text_of keyword }
{
    match keyword {
        Keyword::Link => "link",
        Keyword::Exec => "exec",
        Keyword::Run => "run",
        Keyword::Sim => "sim",
        Keyword::List => "list",
        Keyword::Gen => "gen",
        Keyword::Asm => "asm",
        Keyword::Count => "count",
        Keyword::Place => "place",
        Keyword::Plain => "-O0",
        Keyword::Steps => "-n",
        Keyword::Out => "-o",
        Keyword::Counts => "-c",
    }
}

/// What may stand at each place of a form.
pub(crate) fn slots(form: Form) -> &'static [Slot]
    ensures { result.now ≡ slots_of form }
{
    match form {
        Form::LinkOut => &[
            Slot::Says(Keyword::Link),
            Slot::Says(Keyword::Out),
            Slot::Name,
            Slot::Name,
        ],
        Form::LinkPlainOut => &[
            Slot::Says(Keyword::Link),
            Slot::Says(Keyword::Plain),
            Slot::Says(Keyword::Out),
            Slot::Name,
            Slot::Name,
        ],
        Form::LinkOutPlain => &[
            Slot::Says(Keyword::Link),
            Slot::Says(Keyword::Out),
            Slot::Name,
            Slot::Says(Keyword::Plain),
            Slot::Name,
        ],
        Form::Exec => &[Slot::Says(Keyword::Exec), Slot::Name],
        Form::ExecPlain => &[
            Slot::Says(Keyword::Exec),
            Slot::Says(Keyword::Plain),
            Slot::Name,
        ],
        Form::ExecSteps => &[
            Slot::Says(Keyword::Exec),
            Slot::Says(Keyword::Steps),
            Slot::Number,
            Slot::Name,
        ],
        Form::ExecPlainSteps => &[
            Slot::Says(Keyword::Exec),
            Slot::Says(Keyword::Plain),
            Slot::Says(Keyword::Steps),
            Slot::Number,
            Slot::Name,
        ],
        Form::ExecStepsPlain => &[
            Slot::Says(Keyword::Exec),
            Slot::Says(Keyword::Steps),
            Slot::Number,
            Slot::Says(Keyword::Plain),
            Slot::Name,
        ],
        Form::Run => &[Slot::Says(Keyword::Run), Slot::Name],
        Form::RunSteps => &[
            Slot::Says(Keyword::Run),
            Slot::Says(Keyword::Steps),
            Slot::Number,
            Slot::Name,
        ],
        Form::Sim => &[Slot::Says(Keyword::Sim), Slot::Name],
        Form::SimSteps => &[
            Slot::Says(Keyword::Sim),
            Slot::Says(Keyword::Steps),
            Slot::Number,
            Slot::Name,
        ],
        Form::List => &[Slot::Says(Keyword::List), Slot::Name],
        Form::Gen => &[Slot::Says(Keyword::Gen), Slot::Number],
        Form::Asm => &[
            Slot::Says(Keyword::Asm),
            Slot::Says(Keyword::Out),
            Slot::Name,
            Slot::Name,
        ],
        Form::CountOut => &[
            Slot::Says(Keyword::Count),
            Slot::Says(Keyword::Out),
            Slot::Name,
            Slot::Name,
        ],
        Form::CountStepsOut => &[
            Slot::Says(Keyword::Count),
            Slot::Says(Keyword::Steps),
            Slot::Number,
            Slot::Says(Keyword::Out),
            Slot::Name,
            Slot::Name,
        ],
        Form::CountOutSteps => &[
            Slot::Says(Keyword::Count),
            Slot::Says(Keyword::Out),
            Slot::Name,
            Slot::Says(Keyword::Steps),
            Slot::Number,
            Slot::Name,
        ],
        Form::PlaceCountsOut => &[
            Slot::Says(Keyword::Place),
            Slot::Says(Keyword::Counts),
            Slot::Name,
            Slot::Says(Keyword::Out),
            Slot::Name,
            Slot::Name,
        ],
        Form::PlaceOutCounts => &[
            Slot::Says(Keyword::Place),
            Slot::Says(Keyword::Out),
            Slot::Name,
            Slot::Says(Keyword::Counts),
            Slot::Name,
            Slot::Name,
        ],
    }
}

/// Whether any number of further names may stand behind the last slot.
pub(crate) fn goes_on(form: Form) -> bool
    ensures { result ≡ may_go_on form }
{
    match form {
        Form::LinkOut | Form::LinkPlainOut | Form::LinkOutPlain => true,
        Form::Exec | Form::ExecPlain | Form::ExecSteps => true,
        Form::ExecPlainSteps | Form::ExecStepsPlain => true,
        Form::Sim | Form::SimSteps => true,
        Form::PlaceCountsOut | Form::PlaceOutCounts => true,
        _ => false,
    }
}

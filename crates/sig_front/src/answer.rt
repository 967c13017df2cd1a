//! Why a text is refused as a program.

ghost use Rattle.std.specs.Prelude.{◌≡◌};
ghost use Rattle.sig_front.specs.declared.answer.FrontAnswer.TheVariants.{OutOfMemory};

use sig_call::CallAnswer;
use sig_flat::FlatAnswer;
use sig_lex::LexAnswer;
use sig_parse::ParseAnswer;
use sig_type::TypeAnswer;
use std::error::Error;
use std::fmt;

/// The first refusal of a text by the passes, in their order, or want of memory. It displays as the
/// line, without its newline, that the program writes on standard error. Want of memory inside a pass
/// is `OutOfMemory` here, and never stands inside another variant.
#[derive(Debug, Drop)]
pub enum FrontAnswer {
    Lex(LexAnswer),
    Parse(ParseAnswer),
    Type(TypeAnswer),
    /// More than this many signals are needed, those of copies included.
    TooManySignals(u32),
    OutOfMemory,
}

impl fmt::Display for FrontAnswer {
    ghost use Rattle.std.specs.Prelude.{Some};
    ghost use Rattle.sig_front.specs.Shown.{front_line};

    ghost output = { λ answer. Some (front_line answer) };

    fn fmt<W: fmt::Write>(&self, f: &mut fmt::Formatter<W>) -> fmt::Result {
        match self {
            FrontAnswer::Lex(answer) => write!(f, "{answer}"),
            FrontAnswer::Parse(answer) => write!(f, "{answer}"),
            FrontAnswer::Type(answer) => write!(f, "{answer}"),
            FrontAnswer::TooManySignals(limit) => write!(f, "error: more than {limit} signals"),
            FrontAnswer::OutOfMemory => f.write_str("error: out of memory"),
        }
    }
}

impl Error for FrontAnswer {}

impl From<LexAnswer> for FrontAnswer {
    ghost use Rattle.sig_front.specs.Texts.{of_lex};

    ghost from_gives = { λ answer front. front ≡ of_lex answer };

    fn from(answer: LexAnswer) -> FrontAnswer {
        match answer {
            LexAnswer::OutOfMemory => FrontAnswer::OutOfMemory,
            _ => FrontAnswer::Lex(answer),
        }
    }
}

impl From<ParseAnswer> for FrontAnswer {
    ghost use Rattle.sig_front.specs.Texts.{of_parse};

    ghost from_gives = { λ answer front. front ≡ of_parse answer };

    fn from(answer: ParseAnswer) -> FrontAnswer {
        match answer {
            ParseAnswer::OutOfMemory => FrontAnswer::OutOfMemory,
            _ => FrontAnswer::Parse(answer),
        }
    }
}

impl From<TypeAnswer> for FrontAnswer {
    ghost use Rattle.sig_front.specs.Flats.{of_type};

    ghost from_gives = { λ answer front. front ≡ of_type answer };

    fn from(answer: TypeAnswer) -> FrontAnswer {
        match answer {
            TypeAnswer::OutOfMemory => FrontAnswer::OutOfMemory,
            _ => FrontAnswer::Type(answer),
        }
    }
}

impl From<CallAnswer> for FrontAnswer {
    ghost use Rattle.sig_front.specs.Flats.{of_call};

    ghost from_gives = { λ answer front. front ≡ of_call answer };

    fn from(answer: CallAnswer) -> FrontAnswer {
        match answer {
            CallAnswer::TooManySignals(limit) => FrontAnswer::TooManySignals(limit),
            CallAnswer::OutOfMemory => FrontAnswer::OutOfMemory,
        }
    }
}

impl From<FlatAnswer> for FrontAnswer {
    ghost use Rattle.sig_front.specs.Flats.{of_flat};

    ghost from_gives = { λ answer front. front ≡ of_flat answer };

    fn from(answer: FlatAnswer) -> FrontAnswer {
        match answer {
            FlatAnswer::TooManySignals(limit) => FrontAnswer::TooManySignals(limit),
            FlatAnswer::OutOfMemory => FrontAnswer::OutOfMemory,
        }
    }
}

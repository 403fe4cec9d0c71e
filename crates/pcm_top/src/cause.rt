// The fault of the program that a fault of one of its calls is.
ghost use Rattle.std.specs.Prelude.{◌≡◌};
ghost use Rattle.pcm_top.specs.Causes.{no_bytes, no_image, no_job, no_text, no_trace};
ghost use Rattle.pcm_top.specs.declared.fault.Fault.TheVariants as of;

use crate::fault::Fault;
use check_text::TextFault;
use command_line::Refusal;
use pcm_image::{ImageFault, ReadImage};
use pcm_io::{ReadAllFault, WriteFault};
use std::alloc::AllocError;
use trace_reader::ParseFault;

impl From<AllocError> for Fault {
    ghost from_gives = { λ _ fault. fault ≡ of.NoMemory };

    fn from(_: AllocError) -> Fault {
        Fault::NoMemory
    }
}

impl From<WriteFault> for Fault {
    ghost from_gives = { λ _ fault. fault ≡ of.Write };

    fn from(_: WriteFault) -> Fault {
        Fault::Write
    }
}

impl From<Refusal> for Fault {
    ghost from_gives = { λ refusal fault. fault ≡ no_job refusal };

    fn from(refusal: Refusal) -> Fault {
        match refusal {
            Refusal::Usage => Fault::Usage,
            Refusal::NoMemory => Fault::NoMemory,
        }
    }
}

impl From<ReadAllFault> for Fault {
    ghost from_gives = { λ read fault. fault ≡ no_bytes read };

    fn from(read: ReadAllFault) -> Fault {
        match read {
            ReadAllFault::Read => Fault::Read,
            ReadAllFault::TooLong => Fault::TooLong,
            ReadAllFault::NoMemory => Fault::NoMemory,
        }
    }
}

impl From<ParseFault> for Fault {
    ghost from_gives = { λ parse fault. fault ≡ no_trace parse };

    fn from(parse: ParseFault) -> Fault {
        match parse {
            ParseFault::Trace(fault) => Fault::Trace(fault),
            ParseFault::TooMany => Fault::TooLong,
            ParseFault::NoMemory => Fault::NoMemory,
        }
    }
}

impl From<TextFault> for Fault {
    ghost from_gives = { λ text fault. fault ≡ no_text text };

    fn from(text: TextFault) -> Fault {
        match text {
            TextFault::Trace(fault) => Fault::Trace(fault),
            TextFault::TooMany => Fault::TooLong,
            TextFault::Results(row) => Fault::Results(row),
            TextFault::NoMemory => Fault::NoMemory,
        }
    }
}

impl From<ImageFault> for Fault {
    ghost from_gives = { λ image fault. fault ≡ of.Image image };

    fn from(image: ImageFault) -> Fault {
        Fault::Image(image)
    }
}

impl From<ReadImage> for Fault {
    ghost from_gives = { λ image fault. fault ≡ no_image image };

    fn from(image: ReadImage) -> Fault {
        match image {
            ReadImage::Bad(fault) => Fault::Image(fault),
            ReadImage::NoMemory => Fault::NoMemory,
        }
    }
}

// Every answer by its number: "Where an answer is an enum, a definition tells you this paper's number", document 01. 0 is done,
// answered, accepted, read or written, and each refusal has its own. From 18 on they are document 02's.
#![tactic(auto)]

ghost use Rattle.std.specs.Prelude.{◌≡◌, ℕ};
ghost use Rattle.refusals.specs.Replies.{number_of as reply_number};
ghost use Rattle.access.specs.Answers.{access_number};
ghost use Rattle.confinement.specs.Refusals.{refusal_number};
ghost use Rattle.image.specs.Images.{read_number};
ghost use Rattle.image_out.specs.Written.{write_number};
ghost use Rattle.chains.specs.Answers.{chain_refusal_number};
ghost use Rattle.take_grant.specs.Imports.{import_number};
ghost use Rattle.numbers.specs.Answered.{answer_number};

use access::AccessRefusal;
use chains::ChainRefusal;
use confinement::TestRefusal;
use image::ReadRefusal;
use image_out::WriteRefusal;
use refusals::Refusal;
use take_grant::ImportRefusal;

// A refusal with a number on paper.
pub trait Numbered {
    ghost paper_number: { Self → ℕ };

    fn number(self) -> u8
        ensures { result ≡ paper_number self };
}

// Of a request.
impl Numbered for Refusal {
    ghost paper_number = { reply_number };

    fn number(self) -> u8 {
        self as u8
    }
}

// Of potential access.
impl Numbered for AccessRefusal {
    ghost paper_number = { access_number };

    fn number(self) -> u8 {
        match self {
            AccessRefusal::TableUnsound => 1,
        }
    }
}

// Of the confinement test.
impl Numbered for TestRefusal {
    ghost paper_number = { refusal_number };

    fn number(self) -> u8 {
        match self {
            TestRefusal::TableUnsound => 1,
            TestRefusal::MembersInvalid => 10,
            TestRefusal::ListInvalid => 11,
            TestRefusal::RightUnlisted => 12,
            TestRefusal::MemberHeld => 13,
        }
    }
}

// Of reading an image.
impl Numbered for ReadRefusal {
    ghost paper_number = { read_number };

    fn number(self) -> u8 {
        match self {
            ReadRefusal::TableUnsound => 1,
            ReadRefusal::LengthWrong => 14,
            ReadRefusal::VersionWrong => 15,
        }
    }
}

// Of writing an image.
impl Numbered for WriteRefusal {
    ghost paper_number = { write_number };

    fn number(self) -> u8 {
        match self {
            WriteRefusal::TableUnsound => 1,
            WriteRefusal::BufferShort => 16,
            WriteRefusal::MakerRecorded => 23,
        }
    }
}

// Of showing a chain: the numbers of a test that was refused are the test's own.
impl Numbered for ChainRefusal {
    ghost paper_number = { chain_refusal_number };

    fn number(self) -> u8 {
        match self {
            ChainRefusal::TestRefused(why) => why.number(),
            ChainRefusal::ObjectInvalid => 18,
            ChainRefusal::OutsideBound => 19,
        }
    }
}

// Of bringing in a table of the older rigs.
impl Numbered for ImportRefusal {
    ghost paper_number = { import_number };

    fn number(self) -> u8 {
        match self {
            ImportRefusal::LengthWrong => 20,
            ImportRefusal::VersionWrong => 21,
            ImportRefusal::ValueWrong => 22,
        }
    }
}

// The number of an answer: 0, or that of the refusal.
pub fn number_of<T, E: Numbered + Copy>(answer: &Result<T, E>) -> u8
    ensures { result ≡ answer_number E.paper_number answer.now }
{
    match answer {
        Ok(_) => 0,
        Err(why) => (*why).number(),
    }
}

// Batches in which a call fails, and what each must leave and tell.
use cscout_run::Status;

// Three lines in four files.
pub const FOUR_FILES: &str =
    "w.cs:file a.c\nfile b.c\nfile c.c\nfile d.c\n@s:rename a.c 1 5 sum\nrename b.c 2 5 count\nrename d.c 1 12 total\n@a.c:int x;\n@b.c:extern int x;\nint y;\n@c.c:extern int y;\nint z;\n@d.c:extern int z;\n";

// The same with a second line that is refused.
pub const FOUR_REFUSED: &str =
    "w.cs:file a.c\nfile b.c\nfile c.c\nfile d.c\n@s:rename a.c 1 5 sum\nrename b.c 2 5 sum\nrename d.c 1 12 total\n@a.c:int x;\n@b.c:extern int x;\nint y;\n@c.c:extern int y;\nint z;\n@d.c:extern int z;\n";

const FOUR_EDITED: &str =
    "edited a.c 1\nedited b.c 1\nedited b.c 1\nedited c.c 1\nedited c.c 1\nedited d.c 1\n";

const FOUR_TOLD: &str =
    "edited a.c 1\nedited b.c 1\ncscout: refused: a.c:1:5: occurs\nedited c.c 1\nedited d.c 1\n";

const OLD: &str =
    "a.c:int x;\n@b.c:extern int x;\nint y;\n@c.c:extern int y;\nint z;\n@d.c:extern int z;\n";

// What such a batch leaves where the call of `files` of this number fails, or where that is 0 the write of `out`.
pub struct Ended {
    pub call: u32,
    pub out_call: u32,
    pub after: &'static str,
    pub out: &'static str,
    pub err: &'static str,
    pub status: Status,
}

pub const FOUR_ENDED: [Ended; 13] = [
    Ended {
        call: 1,
        out_call: 0,
        after: OLD,
        out: "",
        err: "cscout: cannot read w.cs\n",
        status: Status::ReadFault,
    },
    Ended {
        call: 2,
        out_call: 0,
        after: OLD,
        out: "",
        err: "cscout: cannot read s\n",
        status: Status::ReadFault,
    },
    Ended {
        call: 3,
        out_call: 0,
        after: OLD,
        out: "",
        err: "cscout: cannot read a.c\n",
        status: Status::ReadFault,
    },
    Ended {
        call: 4,
        out_call: 0,
        after: OLD,
        out: "",
        err: "cscout: cannot read b.c\n",
        status: Status::ReadFault,
    },
    Ended {
        call: 5,
        out_call: 0,
        after: OLD,
        out: "",
        err: "cscout: cannot read c.c\n",
        status: Status::ReadFault,
    },
    Ended {
        call: 6,
        out_call: 0,
        after: OLD,
        out: "",
        err: "cscout: cannot read d.c\n",
        status: Status::ReadFault,
    },
    Ended {
        call: 7,
        out_call: 0,
        after: OLD,
        out: "",
        err: "cscout: cannot write a.c\n",
        status: Status::WriteFault,
    },
    Ended {
        call: 8,
        out_call: 0,
        after: "a.c:int sum;\n@b.c:extern int x;\nint y;\n@c.c:extern int y;\nint z;\n@d.c:extern int z;\n",
        out: "",
        err: "cscout: cannot write b.c\n",
        status: Status::WriteFault,
    },
    Ended {
        call: 9,
        out_call: 0,
        after: "a.c:int sum;\n@b.c:extern int sum;\nint count;\n@c.c:extern int y;\nint z;\n@d.c:extern int z;\n",
        out: "",
        err: "cscout: cannot write c.c\n",
        status: Status::WriteFault,
    },
    Ended {
        call: 10,
        out_call: 0,
        after: "a.c:int sum;\n@b.c:extern int sum;\nint count;\n@c.c:extern int count;\nint total;\n@d.c:extern int z;\n",
        out: "",
        err: "cscout: cannot write d.c\n",
        status: Status::WriteFault,
    },
    // There is no eleventh call: each file is read once, and put once.
    Ended {
        call: 11,
        out_call: 0,
        after: "a.c:int sum;\n@b.c:extern int sum;\nint count;\n@c.c:extern int count;\nint total;\n@d.c:extern int total;\n",
        out: FOUR_EDITED,
        err: "",
        status: Status::Done,
    },
    Ended {
        call: 0,
        out_call: 1,
        after: "a.c:int sum;\n@b.c:extern int sum;\nint count;\n@c.c:extern int count;\nint total;\n@d.c:extern int total;\n",
        out: "",
        err: "cscout: cannot write output\n",
        status: Status::WriteFault,
    },
    // Nor a second write.
    Ended {
        call: 0,
        out_call: 2,
        after: "a.c:int sum;\n@b.c:extern int sum;\nint count;\n@c.c:extern int count;\nint total;\n@d.c:extern int total;\n",
        out: FOUR_EDITED,
        err: "",
        status: Status::Done,
    },
];

// The same behind a refused line: it puts and writes, and has no message of its own.
pub const FOUR_REFUSED_ENDED: [Ended; 3] = [
    Ended {
        call: 8,
        out_call: 0,
        after: "a.c:int sum;\n@b.c:extern int x;\nint y;\n@c.c:extern int y;\nint z;\n@d.c:extern int z;\n",
        out: "",
        err: "cscout: cannot write b.c\n",
        status: Status::WriteFault,
    },
    Ended {
        call: 11,
        out_call: 0,
        after: "a.c:int sum;\n@b.c:extern int sum;\nint y;\n@c.c:extern int y;\nint total;\n@d.c:extern int total;\n",
        out: FOUR_TOLD,
        err: "",
        status: Status::Refused,
    },
    Ended {
        call: 0,
        out_call: 1,
        after: "a.c:int sum;\n@b.c:extern int sum;\nint y;\n@c.c:extern int y;\nint total;\n@d.c:extern int total;\n",
        out: "",
        err: "cscout: cannot write output\n",
        status: Status::WriteFault,
    },
];

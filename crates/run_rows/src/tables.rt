// The runs of the tests, and what each must leave and tell.
use cscout_run::Status;

// A run over these files, each as `PATH:TEXT`, with `@` between them: what it must leave and tell.
#[derive(Drop)]
pub struct Row {
    pub files: &'static str,
    pub words: &'static str,
    pub after: &'static str,
    pub out: &'static str,
    pub err: &'static str,
    pub status: Status,
}

// The same where the call of `files`, or the write of `out` or `err`, of this number fails; 0 is none.
pub struct Failing {
    pub row: Row,
    pub call: u32,
    pub out_call: u32,
    pub err_call: u32,
}

pub const TWO_FILES: &str =
    "w.cs:file a.c\nfile b.c\n@a.c:int x;\nint y = x;\n@b.c:extern int x;\n";

const TWO_RENAMED: &str =
    "w.cs:file a.c\nfile b.c\n@a.c:int count;\nint y = count;\n@b.c:extern int count;\n";

// A class in a header, a macro's list and a unit.
const HEADER: &str =
    "w.cs:ipath i\nfile a.c\n@i/h.h:#define G t\nextern int t;\n@a.c:#include \"h.h\"\nint t;\nint f(void) { return G; }\n";

const HEADER_STARTED: &str =
    "w.cs:ipath i\nfile a.c\n@i/h.h:#define G t\nextern int t;\n@a.c:#include \"h.h\"\nint sum;\nint f(void) { return G; }\n";

const HEADER_RENAMED: &str =
    "w.cs:ipath i\nfile a.c\n@i/h.h:#define G sum\nextern int sum;\n@a.c:#include \"h.h\"\nint sum;\nint f(void) { return G; }\n";

// What files in memory show alone, whose paths are what they are called by: on a disk these name files that are there.
pub const ROWS: [Row; 2] = [
    // The workspace file is not there; it is told as it was written.
    Row {
        files: TWO_FILES,
        words: "./w.cs rename a.c 1 5 z",
        after: TWO_FILES,
        out: "",
        err: "cscout: no workspace file ./w.cs\n",
        status: Status::Workspace,
    },
    // The path of a line is normalised, that of the batch file is not.
    Row {
        files: "w.cs:file a.c\n@./s:rename ./d/../a.c 1 5 z\r\n@a.c:int x;\n",
        words: "w.cs batch ./s",
        after: "a.c:int z;\n",
        out: "edited a.c 1\n",
        err: "",
        status: Status::Done,
    },
];

pub const FAILING: [Failing; 16] = [
    // The header is asked for beside the file that includes it.
    Failing {
        row: Row {
            files: HEADER,
            words: "w.cs rename a.c 2 5 sum",
            after: HEADER,
            out: "",
            err: "cscout: cannot read h.h\n",
            status: Status::ReadFault,
        },
        call: 3,
        out_call: 0,
        err_call: 0,
    },
    Failing {
        row: Row {
            files: HEADER,
            words: "w.cs rename a.c 2 5 sum",
            after: HEADER,
            out: "",
            err: "cscout: cannot read i/h.h\n",
            status: Status::ReadFault,
        },
        call: 4,
        out_call: 0,
        err_call: 0,
    },
    Failing {
        row: Row {
            files: HEADER,
            words: "w.cs rename a.c 2 5 sum",
            after: HEADER,
            out: "",
            err: "cscout: cannot write a.c\n",
            status: Status::WriteFault,
        },
        call: 5,
        out_call: 0,
        err_call: 0,
    },
    // The second put fails.
    Failing {
        row: Row {
            files: HEADER,
            words: "w.cs rename a.c 2 5 sum",
            after: HEADER_STARTED,
            out: "",
            err: "cscout: cannot write i/h.h\n",
            status: Status::WriteFault,
        },
        call: 6,
        out_call: 0,
        err_call: 0,
    },
    Failing {
        row: Row {
            files: HEADER,
            words: "w.cs rename a.c 2 5 sum",
            after: HEADER_RENAMED,
            out: "edited a.c 1\nedited i/h.h 2\n",
            err: "",
            status: Status::Done,
        },
        call: 7,
        out_call: 0,
        err_call: 0,
    },
    Failing {
        row: Row {
            files: TWO_FILES,
            words: "w.cs rename a.c 1 5 count",
            after: TWO_FILES,
            out: "",
            err: "cscout: cannot read w.cs\n",
            status: Status::ReadFault,
        },
        call: 1,
        out_call: 0,
        err_call: 0,
    },
    Failing {
        row: Row {
            files: TWO_FILES,
            words: "w.cs rename a.c 1 5 count",
            after: TWO_FILES,
            out: "",
            err: "cscout: cannot read a.c\n",
            status: Status::ReadFault,
        },
        call: 2,
        out_call: 0,
        err_call: 0,
    },
    Failing {
        row: Row {
            files: TWO_FILES,
            words: "w.cs rename a.c 1 5 count",
            after: TWO_FILES,
            out: "",
            err: "cscout: cannot read b.c\n",
            status: Status::ReadFault,
        },
        call: 3,
        out_call: 0,
        err_call: 0,
    },
    Failing {
        row: Row {
            files: TWO_FILES,
            words: "w.cs rename a.c 1 5 count",
            after: TWO_FILES,
            out: "",
            err: "cscout: cannot write a.c\n",
            status: Status::WriteFault,
        },
        call: 4,
        out_call: 0,
        err_call: 0,
    },
    Failing {
        row: Row {
            files: TWO_FILES,
            words: "w.cs rename a.c 1 5 count",
            after: "w.cs:file a.c\nfile b.c\n@a.c:int count;\nint y = count;\n@b.c:extern int x;\n",
            out: "",
            err: "cscout: cannot write b.c\n",
            status: Status::WriteFault,
        },
        call: 5,
        out_call: 0,
        err_call: 0,
    },
    Failing {
        row: Row {
            files: TWO_FILES,
            words: "w.cs rename a.c 1 5 count",
            after: TWO_RENAMED,
            out: "edited a.c 2\nedited b.c 1\n",
            err: "",
            status: Status::Done,
        },
        call: 6,
        out_call: 0,
        err_call: 0,
    },
    Failing {
        row: Row {
            files: TWO_FILES,
            words: "w.cs rename a.c 1 5 count",
            after: TWO_RENAMED,
            out: "",
            err: "cscout: cannot write output\n",
            status: Status::WriteFault,
        },
        call: 0,
        out_call: 1,
        err_call: 0,
    },
    Failing {
        row: Row {
            files: TWO_FILES,
            words: "w.cs rename a.c 1 5 count",
            after: TWO_RENAMED,
            out: "edited a.c 2\nedited b.c 1\n",
            err: "",
            status: Status::Done,
        },
        call: 0,
        out_call: 2,
        err_call: 0,
    },
    Failing {
        row: Row {
            files: TWO_FILES,
            words: "w.cs rename a.c 1 5 while",
            after: TWO_FILES,
            out: "",
            err: "",
            status: Status::Refused,
        },
        call: 0,
        out_call: 0,
        err_call: 1,
    },
    Failing {
        row: Row {
            files: TWO_FILES,
            words: "w.cs rename a.c 1 5 while",
            after: TWO_FILES,
            out: "",
            err: "cscout: refused: ",
            status: Status::Refused,
        },
        call: 0,
        out_call: 0,
        err_call: 3,
    },
    Failing {
        row: Row {
            files: "w.cs:file a.c\nfile b.c\nfile c.c\n@a.c:int n;\n@b.c:extern int n;\n@c.c:extern int n;\n",
            words: "w.cs rename a.c 1 5 m",
            after: "w.cs:file a.c\nfile b.c\nfile c.c\n@a.c:int m;\n@b.c:extern int n;\n@c.c:extern int n;\n",
            out: "",
            err: "cscout: cannot write b.c\n",
            status: Status::WriteFault,
        },
        call: 6,
        out_call: 0,
        err_call: 0,
    },
];

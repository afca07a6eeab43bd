// Reports in which a call fails, and what each must tell. No file changes.
use crate::tables::{Failing, Row};
use cscout_run::Status;

const TWO_UNITS: &str = "w.cs:file a.c\nfile b.c\n@a.c:int x;\n@b.c:#if 0\ny\n#endif\n";

const TWO_NAMES: &str = "w.cs:file a.c\nfile b.c\n@a.c:int x;\n@b.c:extern int x;\n";

const ONE_UNIT: &str = "w.cs:file a.c\n@a.c:int x;\n";

// `tokens` and `skipped`.
pub const FAILING_REPORTS: [Failing; 4] = [
    Failing {
        row: Row {
            files: TWO_UNITS,
            words: "w.cs tokens 1",
            after: TWO_UNITS,
            out: "",
            err: "cscout: cannot read w.cs\n",
            status: Status::ReadFault,
        },
        call: 1,
        out_call: 0,
        err_call: 0,
    },
    Failing {
        row: Row {
            files: TWO_UNITS,
            words: "w.cs tokens 2",
            after: TWO_UNITS,
            out: "",
            err: "cscout: cannot read b.c\n",
            status: Status::ReadFault,
        },
        call: 2,
        out_call: 0,
        err_call: 0,
    },
    Failing {
        row: Row {
            files: TWO_UNITS,
            words: "w.cs skipped",
            after: TWO_UNITS,
            out: "",
            err: "cscout: cannot read b.c\n",
            status: Status::ReadFault,
        },
        call: 3,
        out_call: 0,
        err_call: 0,
    },
    Failing {
        row: Row {
            files: TWO_UNITS,
            words: "w.cs skipped",
            after: TWO_UNITS,
            out: "",
            err: "cscout: cannot write output\n",
            status: Status::WriteFault,
        },
        call: 0,
        out_call: 1,
        err_call: 0,
    },
];

// `class`.
pub const FAILING_CLASSES: [Failing; 3] = [
    Failing {
        row: Row {
            files: TWO_NAMES,
            words: "w.cs class a.c 1 5",
            after: TWO_NAMES,
            out: "",
            err: "cscout: cannot read w.cs\n",
            status: Status::ReadFault,
        },
        call: 1,
        out_call: 0,
        err_call: 0,
    },
    Failing {
        row: Row {
            files: TWO_NAMES,
            words: "w.cs class a.c 1 5",
            after: TWO_NAMES,
            out: "",
            err: "cscout: cannot read b.c\n",
            status: Status::ReadFault,
        },
        call: 3,
        out_call: 0,
        err_call: 0,
    },
    Failing {
        row: Row {
            files: TWO_NAMES,
            words: "w.cs class a.c 1 5",
            after: TWO_NAMES,
            out: "",
            err: "cscout: cannot write output\n",
            status: Status::WriteFault,
        },
        call: 0,
        out_call: 1,
        err_call: 0,
    },
];

// `unused`, `includes`, `calls` and `find`.
pub const FAILING_LISTS: [Failing; 6] = [
    Failing {
        row: Row {
            files: ONE_UNIT,
            words: "w.cs unused",
            after: ONE_UNIT,
            out: "",
            err: "cscout: cannot read w.cs\n",
            status: Status::ReadFault,
        },
        call: 1,
        out_call: 0,
        err_call: 0,
    },
    Failing {
        row: Row {
            files: ONE_UNIT,
            words: "w.cs includes",
            after: ONE_UNIT,
            out: "",
            err: "cscout: cannot read a.c\n",
            status: Status::ReadFault,
        },
        call: 2,
        out_call: 0,
        err_call: 0,
    },
    Failing {
        row: Row {
            files: ONE_UNIT,
            words: "w.cs calls",
            after: ONE_UNIT,
            out: "",
            err: "cscout: cannot read a.c\n",
            status: Status::ReadFault,
        },
        call: 2,
        out_call: 0,
        err_call: 0,
    },
    Failing {
        row: Row {
            files: ONE_UNIT,
            words: "w.cs unused",
            after: ONE_UNIT,
            out: "",
            err: "cscout: cannot write output\n",
            status: Status::WriteFault,
        },
        call: 0,
        out_call: 1,
        err_call: 0,
    },
    Failing {
        row: Row {
            files: ONE_UNIT,
            words: "w.cs find object",
            after: ONE_UNIT,
            out: "",
            err: "cscout: cannot read a.c\n",
            status: Status::ReadFault,
        },
        call: 2,
        out_call: 0,
        err_call: 0,
    },
    Failing {
        row: Row {
            files: ONE_UNIT,
            words: "w.cs find object",
            after: ONE_UNIT,
            out: "",
            err: "cscout: cannot write output\n",
            status: Status::WriteFault,
        },
        call: 0,
        out_call: 1,
        err_call: 0,
    },
];

// `includes` and `skipped`: each file is read once, and the first read that fails ends the run. Where the call behind the last one would
// fail, none does.
pub const FAILING_READS: [Failing; 11] = [
    // A unit without tokens is accepted.
    Failing {
        row: Row {
            files: "w.cs:file a.c\n@a.c:\n\n#define A\n",
            words: "w.cs includes",
            after: "w.cs:file a.c\n@a.c:\n\n#define A\n",
            out: "",
            err: "",
            status: Status::Done,
        },
        call: 3,
        out_call: 0,
        err_call: 0,
    },
    // Reads of a header and of a later unit fail.
    Failing {
        row: Row {
            files: "w.cs:file a.c\nfile b.c\n@h.h:#ifndef H\n#define H\nint h;\n#endif\n@a.c:#include \"h.h\"\nint a;\n@b.c:#include \"h.h\"\nint b = sizeof h;\n",
            words: "w.cs includes",
            after: "w.cs:file a.c\nfile b.c\n@h.h:#ifndef H\n#define H\nint h;\n#endif\n@a.c:#include \"h.h\"\nint a;\n@b.c:#include \"h.h\"\nint b = sizeof h;\n",
            out: "",
            err: "cscout: cannot read h.h\n",
            status: Status::ReadFault,
        },
        call: 3,
        out_call: 0,
        err_call: 0,
    },
    // Reads of a header and of a later unit fail.
    Failing {
        row: Row {
            files: "w.cs:file a.c\nfile b.c\n@h.h:#ifndef H\n#define H\nint h;\n#endif\n@a.c:#include \"h.h\"\nint a;\n@b.c:#include \"h.h\"\nint b = sizeof h;\n",
            words: "w.cs includes",
            after: "w.cs:file a.c\nfile b.c\n@h.h:#ifndef H\n#define H\nint h;\n#endif\n@a.c:#include \"h.h\"\nint a;\n@b.c:#include \"h.h\"\nint b = sizeof h;\n",
            out: "",
            err: "cscout: cannot read b.c\n",
            status: Status::ReadFault,
        },
        call: 4,
        out_call: 0,
        err_call: 0,
    },
    // The header of the only unit is the second file that is read.
    Failing {
        row: Row {
            files: "w.cs:file a.c\n@a.c:#include \"h.h\"\nint a;\n@h.h:int h;\n",
            words: "w.cs includes",
            after: "w.cs:file a.c\n@a.c:#include \"h.h\"\nint a;\n@h.h:int h;\n",
            out: "",
            err: "cscout: cannot read h.h\n",
            status: Status::ReadFault,
        },
        call: 3,
        out_call: 0,
        err_call: 0,
    },
    // Both units are accepted; no fourth read is made.
    Failing {
        row: Row {
            files: "w.cs:file a.c\nfile b.c\n@h.h:#ifndef H\n#define H\nint h;\n#endif\n@a.c:#include \"h.h\"\nint a;\n@b.c:#include \"h.h\"\nint b = sizeof h;\n",
            words: "w.cs includes",
            after: "w.cs:file a.c\nfile b.c\n@h.h:#ifndef H\n#define H\nint h;\n#endif\n@a.c:#include \"h.h\"\nint a;\n@b.c:#include \"h.h\"\nint b = sizeof h;\n",
            out: "a.c:1:1\n",
            err: "",
            status: Status::Done,
        },
        call: 5,
        out_call: 0,
        err_call: 0,
    },
    // Each path is read once, so no fourth read fails; macros are not carried.
    Failing {
        row: Row {
            files: "w.cs:file a.c\nfile b.c\n@h.h:#ifndef H\n#define H\nint h;\n#endif\n@a.c:#include \"h.h\"\nint a;\n#define A 1\n@b.c:#include \"h.h\"\n#ifdef A\nwrong\n#endif\nint b;\n",
            words: "w.cs skipped",
            after: "w.cs:file a.c\nfile b.c\n@h.h:#ifndef H\n#define H\nint h;\n#endif\n@a.c:#include \"h.h\"\nint a;\n#define A 1\n@b.c:#include \"h.h\"\n#ifdef A\nwrong\n#endif\nint b;\n",
            out: "b.c:3-3\n",
            err: "",
            status: Status::Done,
        },
        call: 5,
        out_call: 0,
        err_call: 0,
    },
    // A path without a file is asked for once too.
    Failing {
        row: Row {
            files: "w.cs:ipath i\nfile a.c\nfile b.c\n@a.c:#include \"h.h\"\n@b.c:#include \"h.h\"\n@i/h.h:x\n",
            words: "w.cs skipped",
            after: "w.cs:ipath i\nfile a.c\nfile b.c\n@a.c:#include \"h.h\"\n@b.c:#include \"h.h\"\n@i/h.h:x\n",
            out: "",
            err: "",
            status: Status::Done,
        },
        call: 6,
        out_call: 0,
        err_call: 0,
    },
    // One path is two units.
    Failing {
        row: Row {
            files: "w.cs:file a.c\ndefine N 2\nfile a.c\n@a.c:#ifdef N\nN\n#endif\nx\n",
            words: "w.cs skipped",
            after: "w.cs:file a.c\ndefine N 2\nfile a.c\n@a.c:#ifdef N\nN\n#endif\nx\n",
            out: "",
            err: "",
            status: Status::Done,
        },
        call: 3,
        out_call: 0,
        err_call: 0,
    },
    // A read of a header fails.
    Failing {
        row: Row {
            files: "w.cs:file a.c\nfile b.c\n@h.h:#ifndef H\n#define H\nint h;\n#endif\n@a.c:#include \"h.h\"\nint a;\n#define A 1\n@b.c:#include \"h.h\"\n#ifdef A\nwrong\n#endif\nint b;\n",
            words: "w.cs skipped",
            after: "w.cs:file a.c\nfile b.c\n@h.h:#ifndef H\n#define H\nint h;\n#endif\n@a.c:#include \"h.h\"\nint a;\n#define A 1\n@b.c:#include \"h.h\"\n#ifdef A\nwrong\n#endif\nint b;\n",
            out: "",
            err: "cscout: cannot read h.h\n",
            status: Status::ReadFault,
        },
        call: 3,
        out_call: 0,
        err_call: 0,
    },
    // A read in a later unit fails.
    Failing {
        row: Row {
            files: "w.cs:file a.c\nfile b.c\n@h.h:#ifndef H\n#define H\nint h;\n#endif\n@a.c:#include \"h.h\"\nint a;\n#define A 1\n@b.c:#include \"h.h\"\n#ifdef A\nwrong\n#endif\nint b;\n",
            words: "w.cs skipped",
            after: "w.cs:file a.c\nfile b.c\n@h.h:#ifndef H\n#define H\nint h;\n#endif\n@a.c:#include \"h.h\"\nint a;\n#define A 1\n@b.c:#include \"h.h\"\n#ifdef A\nwrong\n#endif\nint b;\n",
            out: "",
            err: "cscout: cannot read b.c\n",
            status: Status::ReadFault,
        },
        call: 4,
        out_call: 0,
        err_call: 0,
    },
    // A workspace without units reads no file.
    Failing {
        row: Row {
            files: "w.cs:ipath i\n@a.c:x\n",
            words: "w.cs skipped",
            after: "w.cs:ipath i\n@a.c:x\n",
            out: "",
            err: "",
            status: Status::Done,
        },
        call: 2,
        out_call: 0,
        err_call: 0,
    },
];

// No call is made: `generate` reads no file and puts none, and an empty text is not written. So the first call, if there were one,
// would fail.
pub const FAILING_NOTHING: [Failing; 4] = [
    Failing {
        row: Row {
            files: "h.h:int total;\n",
            words: "generate 2",
            after: "h.h:int total;\n",
            out: "units 2 tokens 42 members 3\n",
            err: "",
            status: Status::Done,
        },
        call: 1,
        out_call: 0,
        err_call: 1,
    },
    Failing {
        row: Row {
            files: "w.cs:ipath i\n",
            words: "w.cs unused",
            after: "w.cs:ipath i\n",
            out: "",
            err: "",
            status: Status::Done,
        },
        call: 2,
        out_call: 1,
        err_call: 1,
    },
    Failing {
        row: Row {
            files: "w.cs:file a.c\n@a.c:int main(void) { return 0; }\n",
            words: "w.cs skipped",
            after: "w.cs:file a.c\n@a.c:int main(void) { return 0; }\n",
            out: "",
            err: "",
            status: Status::Done,
        },
        call: 3,
        out_call: 1,
        err_call: 1,
    },
    // A batch without lines puts nothing either.
    Failing {
        row: Row {
            files: "w.cs:file a.c\n@s:@a.c:int x;\n",
            words: "w.cs batch s",
            after: "w.cs:file a.c\n@s:@a.c:int x;\n",
            out: "",
            err: "",
            status: Status::Done,
        },
        call: 4,
        out_call: 1,
        err_call: 1,
    },
];

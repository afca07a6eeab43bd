// Trims in which a call fails, and what each must leave and tell. The second analysis reads no file: there is no
// call for it.
use crate::tables::{Failing, Row};
use cscout_run::Status;

const OLD: &str =
    "w.cs:file a.c\n@a.c:#include \"g.h\"\nint x;\n@g.h:#include \"h.h\"\nstatic int g;\n@h.h:extern int y;\n";

const BETWEEN: &str =
    "w.cs:file a.c\n@a.c:# \nint x;\n@g.h:#include \"h.h\"\nstatic int g;\n@h.h:extern int y;\n";

const NEW: &str = "w.cs:file a.c\n@a.c:# \nint x;\n@g.h:# \nstatic int g;\n@h.h:extern int y;\n";

pub const FAILING_TRIMS: [Failing; 8] = [
    Failing {
        row: Row {
            files: OLD,
            words: "w.cs trim",
            after: OLD,
            out: "",
            err: "cscout: cannot read w.cs\n",
            status: Status::ReadFault,
        },
        call: 1,
        out_call: 0,
        err_call: 0,
    },
    Failing {
        row: Row {
            files: OLD,
            words: "w.cs trim",
            after: OLD,
            out: "",
            err: "cscout: cannot read a.c\n",
            status: Status::ReadFault,
        },
        call: 2,
        out_call: 0,
        err_call: 0,
    },
    Failing {
        row: Row {
            files: OLD,
            words: "w.cs trim",
            after: OLD,
            out: "",
            err: "cscout: cannot read g.h\n",
            status: Status::ReadFault,
        },
        call: 3,
        out_call: 0,
        err_call: 0,
    },
    Failing {
        row: Row {
            files: OLD,
            words: "w.cs trim",
            after: OLD,
            out: "",
            err: "cscout: cannot read h.h\n",
            status: Status::ReadFault,
        },
        call: 4,
        out_call: 0,
        err_call: 0,
    },
    Failing {
        row: Row {
            files: OLD,
            words: "w.cs trim",
            after: OLD,
            out: "",
            err: "cscout: cannot write a.c\n",
            status: Status::WriteFault,
        },
        call: 5,
        out_call: 0,
        err_call: 0,
    },
    Failing {
        row: Row {
            files: OLD,
            words: "w.cs trim",
            after: BETWEEN,
            out: "",
            err: "cscout: cannot write g.h\n",
            status: Status::WriteFault,
        },
        call: 6,
        out_call: 0,
        err_call: 0,
    },
    Failing {
        row: Row {
            files: OLD,
            words: "w.cs trim",
            after: NEW,
            out: "edited a.c 1\nedited g.h 1\n",
            err: "",
            status: Status::Done,
        },
        call: 7,
        out_call: 0,
        err_call: 0,
    },
    Failing {
        row: Row {
            files: OLD,
            words: "w.cs trim stays",
            after: NEW,
            out: "",
            err: "cscout: cannot write output\n",
            status: Status::WriteFault,
        },
        call: 0,
        out_call: 1,
        err_call: 0,
    },
];

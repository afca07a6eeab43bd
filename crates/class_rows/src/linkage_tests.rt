// Units written out, with the links that were worked out by hand.
use cs_base::{Kind, Link, Memory, Pos, Text, Tok, Toks};
use linkage_join::{UnitNames, external_links};
use std::alloc::Global;
use std::test::Fail;

// A name of two characters, and the number that tells its token.
type Name = ([u8; 2], u32);

// Units, each a project and its names, and the links that they must give, each the later token and
// the first one.
struct Row {
    units: &'static [(&'static [u8], &'static [Name])],
    links: &'static [(u32, u32)],
}

const ROWS: [Row; 12] = [
    // No unit, and units without a name.
    Row {
        units: &[],
        links: &[],
    },
    Row {
        units: &[(b"p", &[]), (b"p", &[])],
        links: &[],
    },
    // One unit alone.
    Row {
        units: &[(b"p", &[(*b"xx", 0), (*b"yy", 1)])],
        links: &[],
    },
    // Two units of one project, and of two.
    Row {
        units: &[(b"p", &[(*b"xx", 0)]), (b"p", &[(*b"xx", 1)])],
        links: &[(1, 0)],
    },
    Row {
        units: &[(b"p", &[(*b"xx", 0)]), (b"q", &[(*b"xx", 1)])],
        links: &[],
    },
    // Three units: the third is linked with the first, and not with the second.
    Row {
        units: &[
            (b"p", &[(*b"xx", 0)]),
            (b"p", &[(*b"xx", 1)]),
            (b"p", &[(*b"xx", 2)]),
        ],
        links: &[(1, 0), (2, 0)],
    },
    // A name of the first and the third unit.
    Row {
        units: &[
            (b"p", &[(*b"xx", 0)]),
            (b"p", &[(*b"yy", 1)]),
            (b"p", &[(*b"xx", 2)]),
        ],
        links: &[(2, 0)],
    },
    // A name that the first unit lacks.
    Row {
        units: &[
            (b"p", &[(*b"xx", 0)]),
            (b"p", &[(*b"yy", 1)]),
            (b"p", &[(*b"yy", 2), (*b"xx", 3)]),
        ],
        links: &[(2, 1), (3, 0)],
    },
    // Projects in turn, in order of the units and of their names.
    Row {
        units: &[
            (b"p", &[(*b"xx", 0), (*b"yy", 1)]),
            (b"q", &[(*b"yy", 2), (*b"xx", 3)]),
            (b"p", &[(*b"yy", 4), (*b"xx", 5)]),
            (b"q", &[(*b"xx", 6), (*b"zz", 7)]),
        ],
        links: &[(4, 1), (5, 0), (6, 3)],
    },
    // One file as two units: its tokens come twice.
    Row {
        units: &[
            (b"p", &[(*b"xx", 0), (*b"yy", 1)]),
            (b"p", &[(*b"xx", 0), (*b"yy", 1)]),
        ],
        links: &[(0, 0), (1, 1)],
    },
    // Spellings and projects that differ in one character.
    Row {
        units: &[
            (b"p", &[(*b"xy", 0)]),
            (b"p", &[(*b"yx", 1), (*b"xx", 2)]),
            (b"pp", &[(*b"xy", 3)]),
        ],
        links: &[],
    },
    // A name that is handed in twice is no later unit's.
    Row {
        units: &[
            (b"p", &[(*b"xx", 0), (*b"xx", 1)]),
            (b"p", &[(*b"xx", 2), (*b"xx", 3)]),
        ],
        links: &[(2, 0), (3, 0)],
    },
];

fn name(alloc: Global, text: [u8; 2], number: u32) -> Result<Tok, Memory> {
    let at = Pos {
        file: 1,
        at: number,
    };
    let origins = [Some(at), Some(at)];
    Tok::new(alloc, Kind::Ident, &text, &origins, true, at, 1, true)
}

fn unit(alloc: Global, project: &[u8], names: &[Name]) -> Result<UnitNames, Memory> {
    let mut toks = Vec::new(alloc);
    for (text, number) in names {
        toks.push(name(alloc, *text, *number)?)?;
    }
    Ok(UnitNames::new(Text::new(alloc, project)?, Toks::new(toks)))
}

fn are_links(links: &[Link], want: &[(u32, u32)]) -> bool {
    links.len() == want.len()
        && links.iter().zip(want).all(|(link, pair)| link.x.at().at == pair.0
            && link.y.at().at == pair.1)
}

#[test]
fn later_units_are_linked_with_the_first_of_their_project(rt: HostRuntime) -> Result<(), Fail> {
    let alloc = rt.alloc();
    for (k, row) in ROWS.iter().enumerate() {
        let mut units = Vec::new(alloc);
        for (project, names) in row.units {
            units.push(unit(alloc, project, names)?)?;
        }
        let links = external_links(alloc, &units)?;
        assert!(rt; are_links(&links, row.links), "row {k}");
    }
    Ok(())
}

use c99_tree::{Child, Label, Production, Tree, Visible};
use std::test::Fail;

#[test]
fn children_come_back_in_order(rt: HostRuntime) -> Result<(), Fail> {
    let inner_label = Label {
        production: Production::Primary,
        alternative: 2,
    };
    let outer_label = Label {
        production: Production::Mul,
        alternative: 1,
    };
    let mut inner = Tree::new(rt.alloc(), inner_label, 4);
    inner.push_token(4)?;
    let mut outer = Tree::new(rt.alloc(), outer_label, 3);
    outer.push_token(3)?;
    outer.push_node(inner)?;
    assert_eq!(rt; outer.label(), outer_label);
    assert_eq!(rt; outer.first(), 3);
    assert_eq!(rt; outer.len(), 2);
    assert!(rt; matches!(outer.child(0), Some(Child::Token(3))));
    assert!(rt; matches!(outer.child(1), Some(Child::Node(_))));
    assert!(rt; outer.child(2).is_none());
    Ok(())
}

#[test]
fn only_a_lone_node_takes_the_place(rt: HostRuntime) -> Result<(), Fail> {
    let label = Label {
        production: Production::Post,
        alternative: 1,
    };
    let mut one = Tree::new(rt.alloc(), label, 0);
    one.push_node(Tree::new(rt.alloc(), label, 7))?;
    assert_eq!(rt; one.collapsed().first(), 7);
    let mut two = Tree::new(rt.alloc(), label, 0);
    two.push_node(Tree::new(rt.alloc(), label, 7))?;
    two.push_token(8)?;
    assert_eq!(rt; two.collapsed().len(), 2);
    Ok(())
}

#[test]
fn innermost_declaration_counts(rt: HostRuntime) -> Result<(), Fail> {
    let mut names = Visible::new(rt.alloc());
    assert!(rt; !names.is_typedef(b"t"));
    names.declare(b"t", true)?;
    assert!(rt; names.is_typedef(b"t"));
    names.push_scope()?;
    assert!(rt; names.is_typedef(b"t"));
    names.declare(b"t", false)?;
    assert!(rt; !names.is_typedef(b"t"));
    names.declare(b"u", true)?;
    names.pop_scope();
    assert!(rt; names.is_typedef(b"t"));
    assert!(rt; !names.is_typedef(b"u"));
    names.pop_scope();
    assert!(rt; names.is_typedef(b"t"));
    Ok(())
}

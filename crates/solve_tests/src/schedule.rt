// A schedule of nine players: two rounds of three groups of three, where no two players meet twice, and player 9 plays
// in the first group.
use crate::running::{desk_with, status_of};
use std::alloc::{AllocError, Global};
use std::test::Fail;

/// The places of two groups of one round.
const PAIRS: [(u32, u32); 3] = [(1, 2), (1, 3), (2, 3)];

/// The variables: six groups, and for each group of the first round and each of the second what they share and how
/// much that is.
fn push_variables(alloc: Global, text: &mut String) -> Result<(), AllocError> {
    for w in 1..3u32 {
        for k in 1..4u32 {
            text.push_str(format!(in alloc; "var set of 1..9: s_1_{w}_{k};\n")?.as_str())?;
        }
    }
    for j in 1..4u32 {
        for k in 1..4u32 {
            let shared = format!(in alloc;
                "var set of 1..9: i_1_{j}_{k} :: var_is_introduced :: is_defined_var;\nvar 0..1: n_1_{j}_{k} :: var_is_introduced;\n"
            )?;
            text.push_str(shared.as_str())?;
        }
    }
    text.push_str("array [1..6] of var set of 1..9: g_1 :: output_array([1..2, 1..3]) = ")?;
    text.push_str("[s_1_1_1, s_1_1_2, s_1_1_3, s_1_2_1, s_1_2_2, s_1_2_3];\n")?;
    Ok(())
}

/// Each group has three players, and two groups of one round share none.
fn push_groups(alloc: Global, text: &mut String) -> Result<(), AllocError> {
    for w in 1..3u32 {
        for k in 1..4u32 {
            text.push_str(format!(in alloc; "constraint set_card(s_1_{w}_{k}, 3);\n")?.as_str())?;
        }
    }
    for w in 1..3u32 {
        for (a, b) in PAIRS {
            let apart = format!(in alloc;
                "constraint set_intersect(s_1_{w}_{a}, s_1_{w}_{b}, {{}});\n"
            )?;
            text.push_str(apart.as_str())?;
        }
    }
    Ok(())
}

/// What two groups of different rounds share, and that this is at most one player.
fn push_meetings(alloc: Global, text: &mut String) -> Result<(), AllocError> {
    for j in 1..4u32 {
        for k in 1..4u32 {
            let shared = format!(in alloc;
                "constraint set_intersect(s_1_1_{j}, s_1_2_{k}, i_1_{j}_{k}) :: defines_var(i_1_{j}_{k});\nconstraint set_card(i_1_{j}_{k}, n_1_{j}_{k});\n"
            )?;
            text.push_str(shared.as_str())?;
        }
    }
    Ok(())
}

fn schedule(alloc: Global) -> Result<String, AllocError> {
    let mut text = String::new(alloc);
    push_variables(alloc, &mut text)?;
    push_groups(alloc, &mut text)?;
    push_meetings(alloc, &mut text)?;
    text.push_str("constraint set_in(9, s_1_1_1);\n")?;
    text.push_str(
        "solve :: set_search([s_1_1_1], input_order, indomain_max, complete) satisfy;\n",
    )?;
    Ok(text)
}

#[test]
fn a_schedule_is_found(rt: HostRuntime) -> Result<(), Fail> {
    let alloc = rt.alloc();
    let text = schedule(alloc)?;
    let mut desk = desk_with(alloc, text.as_str())?;
    assert_eq!(rt; status_of(alloc, &["m"], &mut desk)?, 0);
    assert_eq!(rt;
        desk.out(),
        b"g_1 = array2d(1..2, 1..3, [{1,2,9}, {3,4,5}, {6,7,8}, {1,3,6}, {2,4,7}, {5,8,9}]);\n----------\n".as_slice()
    );
    Ok(())
}

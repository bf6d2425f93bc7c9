//! A file with two graphs and a table.
use std::test::Fail;
use tgff_reader::{Graph, Tgff, TgffTask, read_tgff};

/// Whether a task has this name and this type.
fn is_task(task: &TgffTask, name: &str, kind: u64) -> bool {
    task.name.list() == name && task.kind == kind
}

/// Whether this is the first graph of the file below.
fn is_first_graph(graph: &Graph) -> bool {
    let ([t0, t1], [arc], [deadline]) = (
        graph.tasks.list(),
        graph.arcs.list(),
        graph.deadlines.list(),
    ) else {
        return false;
    };
    graph.index == 0
        && graph.period == Some(300_000_000_000_000)
        && is_task(t0, "t0_0", 2)
        && is_task(t1, "t0_1", 5)
        && arc.name.list() == "a0_0"
        && arc.from == 0
        && arc.to == 1
        && arc.kind == 1
        && deadline.task == 1
        && deadline.at == 200_000_000_000_000
        && deadline.hard
}

/// Whether this is the second graph of the file below.
fn is_second_graph(graph: &Graph) -> bool {
    let [task] = graph.tasks.list() else {
        return false;
    };
    graph.index == 1
        && graph.period == Some(150_000_000_000_000)
        && is_task(task, "t1_0", 2)
        && graph.arcs.list().is_empty()
        && graph.deadlines.list().is_empty()
}

/// Whether the table of the file below is found, with its rows and cells.
fn has_table(file: &Tgff) -> bool {
    let tables = file.tables.list();
    if tables.len() != 1 || tables[0].rows.list().len() != 3 {
        return false;
    }
    file.table("PE", 0) == Some(0)
        && file.table("PE", 1).is_none()
        && file.table("TASK_GRAPH", 0).is_none()
        && file.find_row(0, 1, 2) == Some(1)
        && file.find_row(0, 0, 33) == Some(0)
        && file.find_row(0, 1, 5) == Some(2)
        && file.find_row(0, 2, 2).is_none()
        && file.cell(0, 0, 0) == Some("33")
        && file.cell(0, 0, 1).is_none()
        && file.cell(0, 1, 2) == Some("1.23457e-05")
}

#[test]
fn read(rt: HostRuntime) -> Result<(), Fail> {
    let alloc = rt.alloc();
    let text =
        b"@HYPERPERIOD 300\r\n@TASK_GRAPH 0 {\r\nPERIOD 300\r\nTASK t0_0 TYPE 2\r\nTASK t0_1 TYPE 5\r\n\
        ARC a0_0 FROM t0_0 TO t0_1 TYPE 1\r\nHARD_DEADLINE d0_0 ON t0_1 AT 200\r\n}\r\n@TASK_GRAPH 1 {\r\n\
        PERIOD 150\r\nTASK t1_0 TYPE 2\r\nCOLOUR 7\r\n}\r\n@PE 0 {\r\n# price\r\n33\r\n#----\r\n\
        # type time energy\r\n2 48.5 1.23457e-05\r\n5 10 2\r\n}\r\n";
    let file = match read_tgff(alloc, text) {
        Ok(file) => file,
        Err(_) => Tgff::none(alloc),
    };
    let [first, second] = file.graphs.list() else {
        assert!(rt; false, "two graphs");
        return Ok(());
    };
    assert!(rt; is_first_graph(first));
    assert!(rt; is_second_graph(second));
    assert!(rt; has_table(&file));
    Ok(())
}

ghost use Rattle.protocol.specs.Rows.{ParentRowsHold, GroupRowsHold, ProcessRowsHold, RefusalRowsHold};

/// The rules give what was worked by hand.
pub fn worked_rows()
    ensures parent { ParentRowsHold }
    ensures groups { GroupRowsHold }
    ensures process { ProcessRowsHold }
    ensures refusals { RefusalRowsHold }
{}

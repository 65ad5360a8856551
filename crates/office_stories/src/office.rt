//! The offices from which most stories begin.

/// One yearly schedule, two classes, an aggregation of each, and three records, all on one day.
pub(crate) const BASE: &str = "
2024-01-02 add-schedule D1 added years 1 destroy = done
2024-01-02 add-class FIN D1 = done
2024-01-02 add-class LEG D1 = done
2024-01-02 add-root A FIN = number 1
2024-01-02 add-root B LEG = number 2
2024-01-02 add-record r1 1 abc = number 1
2024-01-02 add-record r2 2 - = number 2
2024-01-02 add-record r3 1 abc = number 3
";

/// What comes of it in a year, so that there is something of each kind: record 1 is destroyed, 2
/// here, confirmed and held, 3 here and nothing more, 4 sent, 5 received and held, 6 transferred, 7
/// reviewed. Two runs are closed, the third is open and is at record 2.
pub(crate) const BUSY: &str = "
2024-01-03 add-schedule T added days 1 transfer = done
2024-01-03 add-schedule V added days 1 review = done
2024-01-03 add-child C 1 - = number 3
2024-01-03 add-child D 3 - = number 4
2024-01-03 add-record r4 2 abcd = number 4
2024-01-03 add-record r5 2 abcd = number 5
2024-01-03 add-record r6 2 abcd = number 6
2024-01-03 add-record r7 3 abcde = number 7
2024-01-03 close-aggregation 4 = done
2024-01-03 set-record-schedule <n> T = done for each <n> of 4 5 6
2024-01-03 set-record-schedule 7 V = done
2024-01-05 review 7 - = done
2024-01-05 place-hold L = done
2024-01-05 hold-on L class LEG = done
2024-01-05 lift-hold L = done
2024-01-05 place-hold H = done
2024-01-05 hold-on H record 2 = done
2024-01-05 hold-on H record 5 = done
2024-01-05 hold-on H aggregation 4 = done
2025-01-02 confirm <n> destroy = done for each <n> of 1 2
2025-01-02 confirm <n> transfer = done for each <n> of 4 5 6
2025-01-02 open-run = number 1
2025-01-02 run-step = step 1 destroyed
2025-01-02 run-step = step 2 skipped
2025-01-02 run-step = step 4 sent
2025-01-02 run-step = step 5 sent
2025-01-02 run-step = step 6 sent
2025-01-02 run-step = closed 1
2025-01-02 receipt <n> abcd = done for each <n> of 5 6
2025-01-02 open-run = number 2
2025-01-02 run-step = step 2 skipped
2025-01-02 run-step = step 5 skipped
2025-01-02 run-step = step 6 transferred
2025-01-02 run-step = closed 2
2025-01-02 open-run = number 3
2025-01-02 run-step = step 2 skipped
";

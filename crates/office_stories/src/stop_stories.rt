//! Acts, the making of an office and runs, while a disk stops at each of its calls in turn. Each
//! kind of act is done on an office in which it writes the most rows, and is of a later day.

/// The making of an office, and what is filed in it.
pub(crate) const STOPPED_FILING: &str = "
# An office is made
## asked while a disk stops
record 1 = none, at least 5

# Acts of filing are done
## at the desk
record 1 is none
## asked while a disk stops
2024-01-02 add-schedule D1 added years 1 destroy = done, at least 8
2024-01-03 add-class FIN D1 = done, at least 8
## closed
## asked while a disk stops
2024-01-04 add-root A FIN = number 1, at least 8
2024-01-05 add-record r1 1 abc = number 1, at least 8
## closed
## asked while a disk stops
2024-01-06 add-record r2 1 abc & 2024-01-06 add-record r3 1 - & 2024-01-05 add-class LEG D1 & 2024-01-07 add-schedule T1 added years 1 transfer & 2024-01-07 add-schedule RV added years 1 review = number 2 & number 3 & refused 1 & done & done, at least 8
## closed
## asked while a disk stops
2024-01-08 set-class-schedule FIN T1 = done, at least 8
2024-01-09 set-record-schedule 2 D1 = done, at least 8
";

/// Another class, and holds.
pub(crate) const STOPPED_HOLDING: &str = "
# Acts of classification and holding are done
## at the desk of the base office
2024-01-09 add-schedule RV added years 1 review = done
2024-01-09 add-class NEW RV = done
## closed
## asked while a disk stops
2024-01-10 reclassify record 3 NEW = done, at least 30
2024-01-11 place-hold H = done, at least 30
2024-01-12 hold-on H record 2 = done, at least 30
2024-01-13 hold-off H record 2 = done, at least 30
2024-01-14 lift-hold H = done, at least 30
2025-02-01 review 3 D1 = done, at least 30
";

/// A confirmation, and a run to its receipt.
pub(crate) const STOPPED_DISPOSING: &str = "
# Acts of disposal are done
## at the desk of the base office
2024-01-09 add-schedule T1 added years 1 transfer = done
2024-01-09 set-record-schedule 1 T1 = done
2024-01-10 set-record-schedule 3 T1 = done
## closed
## asked while a disk stops
2025-02-02 confirm 1 transfer = done, at least 8
2025-02-03 close-aggregation 1 = done, at least 8
## closed
## at the desk
2025-02-03 confirm 2 destroy = done
## asked while a disk stops
2025-02-04 open-run = number 1, at least 30
2025-02-04 run-step = step 1 sent, at least 30
2025-02-04 run-step = step 2 destroyed, at least 30
2025-02-04 run-step = closed 1, at least 30
2025-02-05 receipt 1 abc = done, at least 30
## at the desk
record 1 has \"status\":\"received\"
content 2 is none
";

/// A run of four, whose entries and certificate are those of a run that never stopped.
pub(crate) const STOPPED_SHORT_RUN: &str = "
# A run of four is resumed
## at the desk of the base office
2024-01-02 add-record r4 1 abc = number 4
2025-01-02 confirm <n> destroy = done for each <n> of 1 to 4
2025-01-02 open-run = number 1
## closed
## resumed while a disk stops
by 5 steps = closed 1, at least 8
by 5 steps again = closed 1, at least 8
## at the desk
resume = closed 1
entries is run 1 record 1 destroyed; run 1 record 2 destroyed; run 1 record 3 destroyed; run 1 record 4 destroyed;
certificate 1 has ENDED 4
";

/// A run of ten, of which one is held.
pub(crate) const STOPPED_LONG_RUN: &str = "
# A run of ten with a held record is resumed
## at the desk of the base office
2024-01-02 add-record r<n> 1 abc = number <n> for each <n> of 4 to 10
2025-01-02 confirm <n> destroy = done for each <n> of 1 to 10
2025-01-02 place-hold H = done
2025-01-02 hold-on H record 5 = done
2025-01-02 open-run = number 1
## closed
## resumed while a disk stops
by 11 steps = closed 1, at least 30
by 11 steps again = closed 1, at least 30
## at the desk
resume = closed 1
certificate 1 has ENDED 9
certificate 1 has SENT 0
certificate 1 has SKIPPED 1
certificate 1 has SPENT 0
resume = refused 18
";

//! Schedules, classes, aggregations, records, confirmations and reviews.

pub(crate) const FILING: &str = r#"
# A confirmation is for the plan on its day
## at the desk of the base office
2025-01-01 confirm 1 destroy = refused 15
2025-01-02 confirm 1 transfer = refused 16
2025-01-02 confirm 1 destroy = done
2025-01-01 add-class NEW D1 = refused 1

# A class with another schedule moves its records
## at the desk of the base office
record 1 has "due":"2025-01-02"
2025-01-02 confirm 1 destroy = done
2025-01-02 add-schedule D10 added years 10 destroy = done
2025-01-02 set-class-schedule FIN D10 = done
2025-01-02 confirm 1 destroy = refused 15
record 1 has "due":"2034-01-02"
record 2 has "due":"2025-01-02"

# A record that is asked for again is told and changes nothing, not even the day
## at the desk of the base office
0001-01-01 add-record r1 1 abc = same 1
2024-01-01 add-class NEW D1 = refused 1
2024-01-02 add-record r1 1 abd = refused 4

# Of several refusals the least is told
## at the desk of the base office
2024-01-01 add-root A FIN = refused 1
2024-01-02 close-aggregation 1 = done
2024-01-02 add-child A 1 NON = refused 4
2024-01-02 add-child C 1 NON = refused 5
2024-01-02 add-child C 1 - = refused 7
2024-01-02 add-child C 99 - = refused 5
2024-01-02 add-root C - = refused 10

# A reviewed record waits for its next review
## at the desk of the base office
2024-01-02 add-schedule RV review months 6 review = done
2024-01-02 set-record-schedule 1 RV = done
record 1 has "due":"2024-07-02"
2024-07-01 review 1 - = refused 15
2024-07-02 review 1 - = done
record 1 has "due":"2025-01-02"
2025-01-02 confirm 1 destroy = refused 16
2025-01-02 confirm 1 review = refused 16
2025-01-02 review 1 D1 = done
2025-01-02 confirm 1 destroy = done
record 1 has "due":"2025-01-02"

# An aggregation that is given another class takes its records along
## at the desk of the base office
2024-01-02 add-schedule K added years 0 keep = done
2024-01-02 add-class PER K = done
2024-01-02 reclassify aggregation 1 - = refused 10
2024-01-02 reclassify aggregation 1 PER = done
record 1 has "due":null
record 3 has "due":null
record 2 has "due":"2025-01-02"
2024-01-02 reclassify record 1 LEG = done
record 1 has "due":"2025-01-02"

# An act may be told in JSON, with what the short words leave out
## at the desk of the base office
{"act":"add-schedule","day":"2024-01-02","code":"Y","trigger":"origin","unit":"years","count":2,"offset":"quarter","action":"transfer"} = done
2024-01-02 set-record-schedule 1 Y = {"done":true}
record 1 has "due":"2026-04-01"

# Each act is refused for what is not there, ended, in transfer or not due for it
## at the desk of the busy office
2025-01-02 add-class NEW NONE = refused 5
2025-01-02 set-class-schedule NONE D1 = refused 5
2025-01-02 set-class-schedule FIN NONE = refused 5
2025-01-02 close-aggregation 9 = refused 5
2025-01-02 close-aggregation 4 = refused 7
2025-01-02 add-record r9 4 - = refused 7
2025-01-02 set-record-schedule 9 D1 = refused 5
2025-01-02 set-record-schedule 3 NONE = refused 5
2025-01-02 set-record-schedule 1 D1 = refused 13
2025-01-02 reclassify record 9 FIN = refused 5
2025-01-02 reclassify record 3 NONE = refused 5
2025-01-02 reclassify record 1 LEG = refused 13
2025-01-02 reclassify record 4 FIN = refused 14
2025-01-02 confirm 9 destroy = refused 5
2025-01-02 confirm 1 destroy = refused 13
2025-01-02 review 9 - = refused 5
2025-01-02 review 3 NONE = refused 5
2025-01-02 review 1 - = refused 13
2025-01-02 review 4 - = refused 14
2025-01-02 review 3 - = refused 16

# An aggregation is no deeper than 8
## at the desk of the base office
2024-01-02 add-child A2 1 - = number 3
2024-01-02 add-child A3 3 - = number 4
2024-01-02 add-child A4 4 - = number 5
2024-01-02 add-child A5 5 - = number 6
2024-01-02 add-child A6 6 - = number 7
2024-01-02 add-child A7 7 - = number 8
2024-01-02 add-child A8 8 - = number 9
2024-01-02 add-child A9 9 - = refused 9
"#;

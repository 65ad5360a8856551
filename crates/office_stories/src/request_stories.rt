//! Requests and their answers, byte for byte.

pub(crate) const REQUESTS: &str = r#"
# A path of nothing is asked for in pieces of some bytes for each <n> of 1 2 7 4096
## clients in pieces of <n>
GET /nothing = 404 Not Found, application/json, 16: {"error":"path"}, in all 113
HEAD /nothing = 404 Not Found, application/json, 16:
nothing = nothing

# A step is asked of a new office in pieces of some bytes for each <n> of 1 7 4096
## clients in pieces of <n>
POST /acts 20 [{"act":"run-step"}] = 409 Conflict, application/json, 16: [{"refused":18}]
POST /acts = 411 Length Required, application/json, 18: {"error":"length"}
POST /acts 20 [{"ac = 400 Bad Request, application/json, 16: {"error":"body"}
POST /acts 2 [] = 200 OK, application/json, 2: []
POST /acts 2 {} = 400 Bad Request, application/json, 16: {"error":"json"}
POST /acts 58 [{"act":"run-step"},{"act":"run-step","day":"2024-01-02"}] = 400 Bad Request, application/json, 37: {"error":"act","place":1,"refused":2}

# A body that is cut does nothing
## clients in pieces of 7
POST /acts 56 [{"act":"open-run","day":"2025-01-02","by":"registrar"} = 400 Bad Request, application/json, 16: {"error":"body"}
POST /acts 56 [{"act":"open-run","day":"2025-01-02","by":"registrar"} = lost
POST /acts 20 [{"act":"run-step"}] = 409 Conflict, application/json, 16: [{"refused":18}]
POST /acts 56 [{"act":"open-run","day":"2025-01-02","by":"registrar"}] = 200 OK, application/json, 14: [{"number":1}]
POST /acts 20 [{"ac = 400 Bad Request, application/json, 16: {"error":"body"}
POST /acts 20 [{"ac = lost
POST /acts 20 [{"act":"run-step"}] = 200 OK, application/json, 19: [{"certificate":1}]

# Acts stand whose answer is lost for each <n> of 0 to 103
## clients in pieces of 4096
POST /acts 56 [{"act":"open-run","day":"2025-01-02","by":"registrar"}] = 200 OK, application/json, 14: [{"number":1}], in all 104, lost after <n>
POST /acts 20 [{"act":"run-step"}] = 200 OK, application/json, 19: [{"certificate":1}]
POST /acts 20 [{"act":"run-step"}] = 409 Conflict, application/json, 16: [{"refused":18}]

# A run is resumed and certified
## clients in pieces of 2
POST /run/resume = 409 Conflict, application/json, 14: {"refused":18}
GET /certificates/1 = 404 Not Found, application/json, 23: {"error":"certificate"}
POST /acts 56 [{"act":"open-run","day":"2025-01-02","by":"registrar"}] = 200 OK, application/json, 14: [{"number":1}]
POST /run/resume = 200 OK, application/json, 17: {"certificate":1}
GET /certificates/1 = 200 OK, text/plain; charset=utf-8, 147: CERTIFICATE 1\nDAY 2025-01-02\nBY registrar\nENDED 0\nSENT 0\nSKIPPED 0\nSPENT 0\nSHA256 045ce16f4fb05c273a45025e528fc936c6f459e0efd3c4ac5938925881b5a62a\n
bytes GET /certificates/1 HTTP/1.0\r\n\r\n = 200 OK, text/plain; charset=utf-8, 147: CERTIFICATE 1\nDAY 2025-01-02\nBY registrar\nENDED 0\nSENT 0\nSKIPPED 0\nSPENT 0\nSHA256 045ce16f4fb05c273a45025e528fc936c6f459e0efd3c4ac5938925881b5a62a\n

# What is told of records, and of a content that is another one
## clients in pieces of 4096
POST /acts 953 [{"act":"add-schedule","day":"2024-01-02","code":"D1","trigger":"added","unit":"years","count":1,"offset":"none","action":"destroy"},{"act":"add-class","day":"2024-01-02","code":"FIN","title":"Finance","schedule":"D1"},{"act":"add-class","day":"2024-01-02","code":"LEG","title":"Legal","schedule":"D1"},{"act":"add-aggregation","day":"2024-01-02","ref":"A","title":"A","class":"FIN"},{"act":"add-aggregation","day":"2024-01-02","ref":"B","title":"B","class":"LEG"},{"act":"add-record","day":"2024-01-02","ref":"r1","title":"r1","originated":"2024-01-02","aggregation":1,"content":"YWJj"},{"act":"add-record","day":"2024-01-02","ref":"r2","title":"r2","originated":"2024-01-02","aggregation":2,"content":""},{"act":"add-record","day":"2024-01-02","ref":"r3","title":"r3","originated":"2024-01-02","aggregation":1,"content":"YWJj"},{"act":"add-record","day":"2024-01-02","ref":"r1","title":"r1","originated":"2024-01-02","aggregation":1,"content":"YWJj"}] = 200 OK, application/json, 133: [{"done":true},{"done":true},{"done":true},{"number":1},{"number":2},{"number":1},{"number":2},{"number":3},{"number":1,"same":true}]
GET /records/1 = 200 OK, application/json, 306: {"added":"2024-01-02","aggregation":1,"class":"FIN","confirmed":null,"digest":"ba7816bf8f01cfea414140de5dae2223b00361a396177a9cb410ff61f20015ad","due":"2025-01-02","ended":null,"event":null,"held":null,"length":3,"number":1,"originated":"2024-01-02","ref":"r1","schedule":"D1","status":"here","title":"r1"}
GET /records/1/content = 200 OK, application/octet-stream, 3: abc
GET /due/2025-01-02 = 200 OK, application/json, 367: [{"action":"destroy","class":"FIN","confirmed":false,"due":"2025-01-02","held":null,"record":1,"ref":"r1","schedule":"D1"},{"action":"destroy","class":"LEG","confirmed":false,"due":"2025-01-02","held":null,"record":2,"ref":"r2","schedule":"D1"},{"action":"destroy","class":"FIN","confirmed":false,"due":"2025-01-02","held":null,"record":3,"ref":"r3","schedule":"D1"}]
GET /due/2025-01-01 = 200 OK, application/json, 2: []
GET /due/2025-1-2 = 400 Bad Request, application/json, 15: {"error":"day"}
GET /records/4 = 404 Not Found, application/json, 18: {"error":"record"}
GET /records/01 = 404 Not Found, application/json, 18: {"error":"record"}
GET /records/4/content = 404 Not Found, application/json, 19: {"error":"content"}
## in the tables
UPDATE contents SET bytes = x'616264' WHERE record = 1
## clients in pieces of 4096
GET /records/1/content = 503 Service Unavailable, application/json, 12: {"fault":33}
GET /records/1 = 200 OK, application/json, 306: {"added":"2024-01-02","aggregation":1,"class":"FIN","confirmed":null,"digest":"ba7816bf8f01cfea414140de5dae2223b00361a396177a9cb410ff61f20015ad","due":"2025-01-02","ended":null,"event":null,"held":null,"length":3,"number":1,"originated":"2024-01-02","ref":"r1","schedule":"D1","status":"here","title":"r1"}
GET /nothing = 404 Not Found, application/json, 16: {"error":"path"}

# A list of acts meets a fault: its answers so far come with it
## at the desk
## in the tables
DROP TABLE certificates; CREATE TABLE certificates(run INTEGER PRIMARY KEY, body TEXT NOT NULL CHECK (body = '')) STRICT
## clients in pieces of 4096
POST /acts 75 [{"act":"open-run","day":"2025-01-02","by":"registrar"},{"act":"run-step"}] = 503 Service Unavailable, application/json, 37: {"answers":[{"number":1}],"fault":31}
POST /acts 20 [{"act":"run-step"}] = 503 Service Unavailable, application/json, 25: {"answers":[],"fault":32}
"#;

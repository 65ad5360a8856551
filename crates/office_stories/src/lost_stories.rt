//! Clients that are lost: before their last byte came, or before their whole answer went.

/// What they leave behind before their last byte came is nothing.
pub(crate) const LOST: &str = r#"
# A client that is lost before its last byte does nothing
## clients in pieces of 1
first <n> of POST /acts 56 [{"act":"open-run","day":"2025-01-02","by":"registrar"}] = lost for each <n> of 0 to 107
first <n> of POST /run/resume = lost for each <n> of 0 to 37
first <n> of GET /nothing = lost for each <n> of 0 to 33
POST /acts 20 [{"act":"run-step"}] = 409 Conflict, application/json, 16: [{"refused":18}]
## clients in pieces of 7
first <n> of POST /acts 56 [{"act":"open-run","day":"2025-01-02","by":"registrar"}] = lost for each <n> of 0 to 107
first <n> of POST /run/resume = lost for each <n> of 0 to 37
first <n> of GET /nothing = lost for each <n> of 0 to 33
POST /acts 20 [{"act":"run-step"}] = 409 Conflict, application/json, 16: [{"refused":18}]
## clients in pieces of 4096
first <n> of POST /acts 56 [{"act":"open-run","day":"2025-01-02","by":"registrar"}] = lost for each <n> of 0 to 107
first <n> of POST /run/resume = lost for each <n> of 0 to 37
first <n> of GET /nothing = lost for each <n> of 0 to 33
POST /acts 20 [{"act":"run-step"}] = 409 Conflict, application/json, 16: [{"refused":18}]
## counts of the tables
[0, 0, 0, 0, 0, 0, 0, 0, 0, 0, 0]
## clients in pieces of 7
first 108 of POST /acts 56 [{"act":"open-run","day":"2025-01-02","by":"registrar"}] = 200 OK, application/json, 14: [{"number":1}]
first <n> of POST /acts 20 [{"act":"run-step"}] = lost for each <n> of 0 to 71
first <n> of POST /run/resume = lost for each <n> of 0 to 37
first 38 of POST /run/resume = 200 OK, application/json, 17: {"certificate":1}

# A client that is lost before the last byte of many acts does none of them
## clients in pieces of 100
first <n> of POST /acts 953 [{"act":"add-schedule","day":"2024-01-02","code":"D1","trigger":"added","unit":"years","count":1,"offset":"none","action":"destroy"},{"act":"add-class","day":"2024-01-02","code":"FIN","title":"Finance","schedule":"D1"},{"act":"add-class","day":"2024-01-02","code":"LEG","title":"Legal","schedule":"D1"},{"act":"add-aggregation","day":"2024-01-02","ref":"A","title":"A","class":"FIN"},{"act":"add-aggregation","day":"2024-01-02","ref":"B","title":"B","class":"LEG"},{"act":"add-record","day":"2024-01-02","ref":"r1","title":"r1","originated":"2024-01-02","aggregation":1,"content":"YWJj"},{"act":"add-record","day":"2024-01-02","ref":"r2","title":"r2","originated":"2024-01-02","aggregation":2,"content":""},{"act":"add-record","day":"2024-01-02","ref":"r3","title":"r3","originated":"2024-01-02","aggregation":1,"content":"YWJj"},{"act":"add-record","day":"2024-01-02","ref":"r1","title":"r1","originated":"2024-01-02","aggregation":1,"content":"YWJj"}] = lost for each <n> of 0 to 1005
## counts of the tables
[0, 0, 0, 0, 0, 0, 0, 0, 0, 0, 0]
## clients in pieces of 100
first 1006 of POST /acts 953 [{"act":"add-schedule","day":"2024-01-02","code":"D1","trigger":"added","unit":"years","count":1,"offset":"none","action":"destroy"},{"act":"add-class","day":"2024-01-02","code":"FIN","title":"Finance","schedule":"D1"},{"act":"add-class","day":"2024-01-02","code":"LEG","title":"Legal","schedule":"D1"},{"act":"add-aggregation","day":"2024-01-02","ref":"A","title":"A","class":"FIN"},{"act":"add-aggregation","day":"2024-01-02","ref":"B","title":"B","class":"LEG"},{"act":"add-record","day":"2024-01-02","ref":"r1","title":"r1","originated":"2024-01-02","aggregation":1,"content":"YWJj"},{"act":"add-record","day":"2024-01-02","ref":"r2","title":"r2","originated":"2024-01-02","aggregation":2,"content":""},{"act":"add-record","day":"2024-01-02","ref":"r3","title":"r3","originated":"2024-01-02","aggregation":1,"content":"YWJj"},{"act":"add-record","day":"2024-01-02","ref":"r1","title":"r1","originated":"2024-01-02","aggregation":1,"content":"YWJj"}] = 200 OK, application/json, 133: [{"done":true},{"done":true},{"done":true},{"number":1},{"number":2},{"number":1},{"number":2},{"number":3},{"number":1,"same":true}]
## counts of the tables
[1, 2, 2, 3, 0, 3, 0, 0, 0, 0, 0]

# A connection that ends before its last byte has no head, or a body that is cut
## clients in pieces of 1
first 0 of POST /acts 56 [{"act":"open-run","day":"2025-01-02","by":"registrar"}] = nothing
first <n> of POST /acts 56 [{"act":"open-run","day":"2025-01-02","by":"registrar"}] = 400 Bad Request, application/json, 16: {"error":"head"} for each <n> of 1 to 51
first <n> of POST /acts 56 [{"act":"open-run","day":"2025-01-02","by":"registrar"}] = 400 Bad Request, application/json, 16: {"error":"body"} for each <n> of 52 to 107
first <n> of GET /nothing = 400 Bad Request, application/json, 16: {"error":"head"} for each <n> of 1 to 33
POST /acts 20 [{"act":"run-step"}] = 409 Conflict, application/json, 16: [{"refused":18}]
## clients in pieces of 7
first 0 of POST /acts 56 [{"act":"open-run","day":"2025-01-02","by":"registrar"}] = nothing
first <n> of POST /acts 56 [{"act":"open-run","day":"2025-01-02","by":"registrar"}] = 400 Bad Request, application/json, 16: {"error":"head"} for each <n> of 1 to 51
first <n> of POST /acts 56 [{"act":"open-run","day":"2025-01-02","by":"registrar"}] = 400 Bad Request, application/json, 16: {"error":"body"} for each <n> of 52 to 107
first <n> of GET /nothing = 400 Bad Request, application/json, 16: {"error":"head"} for each <n> of 1 to 33
POST /acts 20 [{"act":"run-step"}] = 409 Conflict, application/json, 16: [{"refused":18}]
## clients in pieces of 4096
first 0 of POST /acts 56 [{"act":"open-run","day":"2025-01-02","by":"registrar"}] = nothing
first <n> of POST /acts 56 [{"act":"open-run","day":"2025-01-02","by":"registrar"}] = 400 Bad Request, application/json, 16: {"error":"head"} for each <n> of 1 to 51
first <n> of POST /acts 56 [{"act":"open-run","day":"2025-01-02","by":"registrar"}] = 400 Bad Request, application/json, 16: {"error":"body"} for each <n> of 52 to 107
first <n> of GET /nothing = 400 Bad Request, application/json, 16: {"error":"head"} for each <n> of 1 to 33
POST /acts 20 [{"act":"run-step"}] = 409 Conflict, application/json, 16: [{"refused":18}]
first 108 of POST /acts 56 [{"act":"open-run","day":"2025-01-02","by":"registrar"}] = 200 OK, application/json, 14: [{"number":1}]

# A long answer is written in more than one piece, and is lost before, between and after them
## at the desk of the base office
## clients in pieces of 4096
bytes POST /acts HTTP/1.1\r\nHost: h\r\nContent-Length: 12120\r\n\r\n[{"act":"add-record","day":"2024-01-02","ref":"r4","title":"r4","originated":"2024-01-02","aggregation":1,"content":" + YWJj x 3000 + "}] = 200 OK, application/json, 14: [{"number":4}]
GET /records/4/content = 200 OK, application/octet-stream, 9000: abc x 3000, lost after <n> for each <n> of 0 1 17 99 100 101 4096 8191 8192 8193 9099
GET /records/4/content = 200 OK, application/octet-stream, 9000: abc x 3000, in all 9100

# The longest content, and one of a byte more
## at the desk of the base office
## clients in pieces of 4096
bytes POST /acts HTTP/1.1\r\nHost: h\r\nContent-Length: 349648\r\n\r\n[{"act":"add-record","day":"2024-01-02","ref":"r4","title":"r4","originated":"2024-01-02","aggregation":1,"content":" + YWJj x 87381 + YWI="}] = 400 Bad Request, application/json, 37: {"error":"act","place":0,"refused":3}
bytes POST /acts HTTP/1.1\r\nHost: h\r\nContent-Length: 349648\r\n\r\n[{"act":"add-record","day":"2024-01-02","ref":"r4","title":"r4","originated":"2024-01-02","aggregation":1,"content":" + YWJj x 87381 + YQ=="}] = 200 OK, application/json, 14: [{"number":4}]
GET /records/4/content = 200 OK, application/octet-stream, 262144: abc x 87381 + a, lost after <n> for each <n> of 0 8192 100000 262245
GET /records/4/content = 200 OK, application/octet-stream, 262144: abc x 87381 + a, in all 262246
## clients in pieces of 4096
GET /records/4/content = 200 OK, application/octet-stream, 262144: abc x 87381 + a, in all 262246
"#;

/// An answer that is lost changes nothing of what follows.
pub(crate) const UNHEARD: &str = r#"
# An answer that is lost after any of its bytes is given again, and the next client has it whole
## at the desk of the base office
2025-01-02 confirm 1 destroy = done
2025-01-02 open-run = number 1
2025-01-02 run-step = step 1 destroyed
## in the tables
UPDATE contents SET bytes = x'61' WHERE record = 2
## clients in pieces of 4096
POST /acts 56 [{"act":"open-run","day":"2025-01-02","by":"registrar"}] = 409 Conflict, application/json, 16: [{"refused":17}], lost after <n> for each <n> of 0 to 111
POST /acts 56 [{"act":"open-run","day":"2025-01-02","by":"registrar"}] = 409 Conflict, application/json, 16: [{"refused":17}], in all 112
GET /records/2 = 200 OK, application/json, 306: {"added":"2024-01-02","aggregation":2,"class":"LEG","confirmed":null,"digest":"e3b0c44298fc1c149afbf4c8996fb92427ae41e4649b934ca495991b7852b855","due":"2025-01-02","ended":null,"event":null,"held":null,"length":0,"number":2,"originated":"2024-01-02","ref":"r2","schedule":"D1","status":"here","title":"r2"}, lost after <n> for each <n> of 0 to 396
GET /records/2 = 200 OK, application/json, 306: {"added":"2024-01-02","aggregation":2,"class":"LEG","confirmed":null,"digest":"e3b0c44298fc1c149afbf4c8996fb92427ae41e4649b934ca495991b7852b855","due":"2025-01-02","ended":null,"event":null,"held":null,"length":0,"number":2,"originated":"2024-01-02","ref":"r2","schedule":"D1","status":"here","title":"r2"}, in all 397
GET /due/2025-01-02 = 200 OK, application/json, 245: [{"action":"destroy","class":"LEG","confirmed":false,"due":"2025-01-02","held":null,"record":2,"ref":"r2","schedule":"D1"},{"action":"destroy","class":"FIN","confirmed":false,"due":"2025-01-02","held":null,"record":3,"ref":"r3","schedule":"D1"}], lost after <n> for each <n> of 0 to 335
GET /due/2025-01-02 = 200 OK, application/json, 245: [{"action":"destroy","class":"LEG","confirmed":false,"due":"2025-01-02","held":null,"record":2,"ref":"r2","schedule":"D1"},{"action":"destroy","class":"FIN","confirmed":false,"due":"2025-01-02","held":null,"record":3,"ref":"r3","schedule":"D1"}], in all 336
GET /records/3/content = 200 OK, application/octet-stream, 3: abc, lost after <n> for each <n> of 0 to 99
GET /records/3/content = 200 OK, application/octet-stream, 3: abc, in all 100
GET /records/1/content = 404 Not Found, application/json, 19: {"error":"content"}, lost after <n> for each <n> of 0 to 115
GET /records/1/content = 404 Not Found, application/json, 19: {"error":"content"}, in all 116
GET /records/2/content = 503 Service Unavailable, application/json, 12: {"fault":33}, lost after <n> for each <n> of 0 to 118
GET /records/2/content = 503 Service Unavailable, application/json, 12: {"fault":33}, in all 119
GET /records/01 = 404 Not Found, application/json, 18: {"error":"record"}, lost after <n> for each <n> of 0 to 114
GET /records/01 = 404 Not Found, application/json, 18: {"error":"record"}, in all 115
GET /nothing = 404 Not Found, application/json, 16: {"error":"path"}, lost after <n> for each <n> of 0 to 112
GET /nothing = 404 Not Found, application/json, 16: {"error":"path"}, in all 113
GET /due/never = 400 Bad Request, application/json, 15: {"error":"day"}, lost after <n> for each <n> of 0 to 113
GET /due/never = 400 Bad Request, application/json, 15: {"error":"day"}, in all 114
POST /acts 2 {} = 400 Bad Request, application/json, 16: {"error":"json"}, lost after <n> for each <n> of 0 to 114
POST /acts 2 {} = 400 Bad Request, application/json, 16: {"error":"json"}, in all 115
POST /acts 3 [] = 400 Bad Request, application/json, 16: {"error":"body"}, lost after <n> for each <n> of 0 to 114
POST /acts 3 [] = 400 Bad Request, application/json, 16: {"error":"body"}, in all 115
bytes GET /nothing HTTP/1.1\r\n\r\n = 400 Bad Request, application/json, 16: {"error":"host"}, lost after <n> for each <n> of 0 to 114
bytes GET /nothing HTTP/1.1\r\n\r\n = 400 Bad Request, application/json, 16: {"error":"host"}, in all 115
bytes \x00 = 400 Bad Request, application/json, 16: {"error":"head"}, lost after <n> for each <n> of 0 to 114
bytes \x00 = 400 Bad Request, application/json, 16: {"error":"head"}, in all 115
GET /acts = bytes HTTP/1.1 405 Method Not Allowed\r\nContent-Type: application/json\r\nContent-Length: 18\r\nAllow: POST\r\nConnection: close\r\n\r\n{"error":"method"}, lost after <n> for each <n> of 0 to 136
GET /acts = bytes HTTP/1.1 405 Method Not Allowed\r\nContent-Type: application/json\r\nContent-Length: 18\r\nAllow: POST\r\nConnection: close\r\n\r\n{"error":"method"}, in all 137
HEAD /nothing = 404 Not Found, application/json, 16:, lost after <n> for each <n> of 0 to 96
HEAD /nothing = 404 Not Found, application/json, 16:, in all 97
POST /acts = 411 Length Required, application/json, 18: {"error":"length"}, lost after <n> for each <n> of 0 to 120
POST /acts = 411 Length Required, application/json, 18: {"error":"length"}, in all 121
POST /acts 1048577 [] = 413 Payload Too Large, application/json, 16: {"error":"size"}, lost after <n> for each <n> of 0 to 120
POST /acts 1048577 [] = 413 Payload Too Large, application/json, 16: {"error":"size"}, in all 121
bytes POST /acts HTTP/1.1\r\nHost: h\r\nTransfer-Encoding: chunked\r\n\r\n = 501 Not Implemented, application/json, 18: {"error":"coding"}, lost after <n> for each <n> of 0 to 120
bytes POST /acts HTTP/1.1\r\nHost: h\r\nTransfer-Encoding: chunked\r\n\r\n = 501 Not Implemented, application/json, 18: {"error":"coding"}, in all 121
POST /run/resume = 200 OK, application/json, 17: {"certificate":1}
GET /certificates/1 = 200 OK, text/plain; charset=utf-8, 265: CERTIFICATE 1\nDAY 2025-01-02\nBY registrar\nENDED 1\nSENT 0\nSKIPPED 0\nENTRY\t1\tdestroyed\tr1\tFIN\tD1\t2025-01-02\t-\tregistrar\t3\tba7816bf8f01cfea414140de5dae2223b00361a396177a9cb410ff61f20015ad\nSPENT 0\nSHA256 080d0bc7bc35173f3bbc157087e0e5ab0261242c5494629a7c3d0105911a7057\n, lost after <n> for each <n> of 0 to 364
GET /certificates/1 = 200 OK, text/plain; charset=utf-8, 265: CERTIFICATE 1\nDAY 2025-01-02\nBY registrar\nENDED 1\nSENT 0\nSKIPPED 0\nENTRY\t1\tdestroyed\tr1\tFIN\tD1\t2025-01-02\t-\tregistrar\t3\tba7816bf8f01cfea414140de5dae2223b00361a396177a9cb410ff61f20015ad\nSPENT 0\nSHA256 080d0bc7bc35173f3bbc157087e0e5ab0261242c5494629a7c3d0105911a7057\n, in all 365
POST /run/resume = 409 Conflict, application/json, 14: {"refused":18}, lost after <n> for each <n> of 0 to 109
POST /run/resume = 409 Conflict, application/json, 14: {"refused":18}, in all 110
GET /records/1 = 200 OK, application/json, 405: {"added":"2024-01-02","aggregation":1,"class":"FIN","confirmed":{"action":"destroy","by":"registrar","day":"2025-01-02","due":"2025-01-02"},"digest":"ba7816bf8f01cfea414140de5dae2223b00361a396177a9cb410ff61f20015ad","due":"2025-01-02","ended":{"outcome":"destroyed","run":1},"event":null,"held":null,"length":3,"number":1,"originated":"2024-01-02","ref":"r1","schedule":"D1","status":"ended","title":"r1"}
## counts of the tables
[1, 2, 2, 3, 0, 2, 0, 0, 1, 1, 1]

# A run is closed whose answer is lost for each <n> of 0 to 106
## at the desk
2025-01-02 open-run = number 1
## clients in pieces of 4096
POST /run/resume = 200 OK, application/json, 17: {"certificate":1}, in all 107, lost after <n>
GET /certificates/1 = 200 OK, text/plain; charset=utf-8, 147: CERTIFICATE 1\nDAY 2025-01-02\nBY registrar\nENDED 0\nSENT 0\nSKIPPED 0\nSPENT 0\nSHA256 045ce16f4fb05c273a45025e528fc936c6f459e0efd3c4ac5938925881b5a62a\n
POST /run/resume = 409 Conflict, application/json, 14: {"refused":18}
"#;
